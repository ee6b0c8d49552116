//! What must stand next in a run can stand there: laws of the legal run, each the contract of a function
//! that does nothing.
#![tactic(auto)]

mod laws;

pub use laws::{calls_go_on, each_duty_is_served, ends_may_stand, stops_may_stand};
