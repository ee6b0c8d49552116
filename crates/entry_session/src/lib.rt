//! A run of DriverEntry alone: its log is a legal run, whatever the image imports.
#![tactic(auto)]

mod session;

pub use session::{Ending, MOST_BUDGET, Session};
