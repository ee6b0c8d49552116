//! Entries that must stand in a run, beside stops and replies: each writes its entry out of the log's
//! spare, and leaves the state behind it. (docs/LEGAL-RUN.md)
#![tactic(auto)]

mod packets;
mod requests;
mod resets;
mod told;

pub use packets::{complete, late, requeue};
pub use requests::answer;
pub use resets::end_reset;
