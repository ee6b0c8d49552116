//! What is known of a context and of a lock that is held.

use nd_base::{Addr, CtxNo};

/// An open context: the level that it began at, the level that it is at, and the lock that it
/// spins on, if it does.
#[derive(Clone, Copy)]
pub struct Context {
    pub began: u8,
    pub level: u8,
    pub spins: Option<Addr>,
}

/// Who holds a lock, and the level that the holder was at before it acquired the lock.
#[derive(Clone, Copy)]
pub struct Holding {
    pub context: CtxNo,
    pub before: u8,
}
