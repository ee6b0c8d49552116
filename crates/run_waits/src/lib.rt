//! What comes by itself where nothing goes on: the next frame, a jump of the clock, the stop of an
//! adapter, and that a driver waits in vain. (docs/LEGAL-RUN.md)
#![tactic(auto)]

mod arrivals;
mod cards;
mod pieces;

pub use arrivals::arrive;
pub use pieces::{jump, quiet, silence};
