//! What must stand directly next in a run: what its book asks for, the verdicts of a leave, what a call
//! makes and its reply, further stops. (docs/LEGAL-RUN.md)
#![tactic(auto)]

mod dues;
mod next;

pub use dues::{Due, must};
pub use next::Next;
