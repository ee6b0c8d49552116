//! What calls of DriverEntry come to where there is no adapter: none waits for another context.
#![tactic(auto)]

mod laws;

pub use laws::calls_of_driver_entry;
