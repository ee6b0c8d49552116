//! A run of DriverEntry alone: which entries it may make, and what is kept behind each.
#![tactic(auto)]

mod laws;

pub use laws::entry_laws;
