//! Laws of entries that stand by themselves: the contract of a function that does nothing.

ghost use Rattle.miniport.specs.Free.{FreeEntriesStand};

/// Where nothing must stand next, an entry may that stands by itself, if the owner machine has a case
/// for it.
pub fn free_entries_stand()
    ensures { FreeEntriesStand }
{}
