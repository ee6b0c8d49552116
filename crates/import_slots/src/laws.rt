//! Laws of slots: each is the contract of a function that does nothing.

ghost use Rattle.import_slots.specs.Laws.{SlotLaws};

use import_table::table_laws;

/// Each import gets the slot of the function that it names, and the first unknown name is told.
pub fn slot_laws()
    ensures { SlotLaws }
{
    table_laws();
}
