//! What calls answer.

use nd_base::{Breach, CtxNo};

/// What becomes of an acquire that breaks no rule.
#[derive(Clone, Copy, Debug, PartialEq, Eq)]
pub enum Took {
    /// The context holds the lock.
    Got,
    /// This other context holds it, and the one that asked spins.
    Spin(CtxNo),
}

/// Why a lock is not made.
#[derive(Clone, Copy, Debug, PartialEq, Eq)]
pub enum LockRefusal {
    OutOfMemory,
    /// The rule that this would break.
    Broken(Breach),
}
