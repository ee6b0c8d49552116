//! What it is to play a protocol driver in a log (specs/Plays.antt): for any protocol, and for one with
//! a script.
#![tactic(auto)]

mod laws;

pub use laws::scripts_are_played;
