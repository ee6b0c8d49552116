//! Laws of a run of DriverEntry alone: each is the contract of a function that does nothing.

ghost use Rattle.entry_run.specs.Laws.{EntryLaws};

use legal_run::replies_are_taken;

/// DriverEntry is entered first, and goes on by turns.
pub fn entry_laws()
    ensures { EntryLaws }
{
    replies_are_taken();
}
