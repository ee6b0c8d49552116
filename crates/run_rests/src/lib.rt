//! Where a run stands still: frames that are due, rest, jumps of the clock, the end of a driver's
//! waiting, adapters that are finished. Nothing here takes memory. (docs/LEGAL-RUN.md)
#![tactic(auto)]

mod checks;
mod choice;
mod endings;
mod frames;
mod jumps;
mod laws;
mod moments;
mod phases;
mod resting;
mod waiting;
mod wakes;

pub use choice::{Due, comes_next};
pub use endings::{all_finished, first_unfinished, is_finished, silent_one};
pub use frames::frame_due;
pub use jumps::{is_quiet, next_jump, silent};
pub use laws::due_laws;
pub use moments::{is_barred, next_moment};
pub use resting::{next_enter, rests};
pub use waiting::{all_wait, holds, waits};
