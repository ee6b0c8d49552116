//! Interrupt request levels and spin locks: which level each context is at, which lock is there,
//! and which context holds it or spins on it. (Windows DDK, "Managing Hardware Priorities" and
//! "Introduction to Spin Locks".)
#![tactic(auto)]

mod answers;
mod levels;
mod lock_table;
mod machine_laws;
mod states;

pub use answers::{LockRefusal, Took};
pub use levels::Levels;
pub use machine_laws::{end_laws, level_laws, lock_laws};
