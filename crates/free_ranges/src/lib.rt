//! The free ranges of a row of units: one that is long enough is found in the logarithm of the
//! row's length, and a range is taken or given back in the same time.
#![tactic(auto)]

mod laws;
mod ranges;
mod tournament;

pub use laws::range_laws;
pub use ranges::FreeRanges;
