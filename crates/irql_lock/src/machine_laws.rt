//! Laws of levels and locks: each is the contract of a function that does nothing.

ghost use Rattle.irql_lock.specs.Laws.{LockLaws, EndLaws, LevelLaws};

/// A lock has one holder at most; who spins on a lock does not hold it; a lock is held until its
/// holder releases it or ends.
pub fn lock_laws()
    ensures { LockLaws }
{}

/// What a context held is released at its end, and nothing else is.
pub fn end_laws()
    ensures { EndLaws }
{}

/// A release puts back the level from before the acquire; no move changes another context's level.
pub fn level_laws()
    ensures { LevelLaws }
{}
