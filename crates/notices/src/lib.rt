//! What a protocol driver is told, one notice after the other, read off the log of a run: it takes no
//! memory to keep them. (docs/LEGAL-RUN.md)
#![tactic(auto)]

mod places;
mod told;

pub use places::Place;
pub use told::Told;
