//! What the library keeps of a run beside contexts, the book of owners and the world of calls: what
//! each driver awaits, the bytes of packets and where they lie, descriptors that are lent, how many
//! frames have come, and how often a timer or hang check expired since something was done.
//! (docs/LEGAL-RUN.md)
#![tactic(auto)]

mod course;
mod hearings;

pub use course::{Course, Frame};
pub use hearings::Hearing;
