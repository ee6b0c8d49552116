//! The timers of an adapter: the one that is due first, their next moment, and their end with the
//! adapter. (Windows DDK, NdisMSetTimer, NdisMCancelTimer; of equal moments the least address comes
//! first: docs/LEGAL-RUN.md.)
#![tactic(auto)]

mod due;
mod ending;

pub use due::{due_timer, next_alarm};
pub use ending::quiet;
