//! How a context follows the driver's code: instructions that are made in a row, and how a call
//! returns.
#![tactic(auto)]

mod returns;
mod turns;

pub use returns::returned;
pub use turns::{Turned, make_turn};
