//! What comes first is owed: the contract of a function that does nothing.

ghost use Rattle.owed_handlers.specs.Laws.{OwedLaws};

/// What comes first is owed; and where nothing comes first, nothing is owed.
pub fn owed_laws()
    ensures { OwedLaws }
{}
