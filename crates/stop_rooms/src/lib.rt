//! How much room the stops of all adapters take, behind each kind of entry: a law.
#![tactic(auto)]

mod laws;

pub use laws::rooms_stay;
