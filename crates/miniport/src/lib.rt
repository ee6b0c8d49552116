//! The miniport's side of a run, step by step: turns of its contexts, their calls, replies and faults,
//! which context goes on next, and when the next sleeper wakes. Each step writes its entry into the
//! log out of the log's spare, and takes no memory. (docs/LEGAL-RUN.md)
#![tactic(auto)]

mod charges;
mod contexts;
mod laws;
mod marks;
mod replies;
mod steps;
mod waiting;
mod writing;

pub use contexts::{adapter_of, is_alive, registers_at};
pub use laws::free_entries_stand;
pub use marks::{hang_period, set_check, set_enables, set_initialized, set_wait};
pub use replies::reply;
pub use steps::{call, fault, ran, turn};
pub use waiting::{can_run, next_check, next_wake, ready};
pub use writing::write;
