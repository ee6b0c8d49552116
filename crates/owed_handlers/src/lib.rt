//! The handler that is to be entered next: of those that NDIS owes the miniport, and that may be open
//! beside what is open, the one that comes first. (Windows DDK, the reference page of each Miniport
//! function; which comes first: docs/LEGAL-RUN.md.)
#![tactic(auto)]

mod alarms;
mod choice;
mod laws;
mod lines;
mod progress;
mod rows;
mod standings;
mod syncs;

pub use alarms::next_alarm;
pub use choice::{Owed, next_owed};
pub use laws::owed_laws;
pub use syncs::sync_caller;
