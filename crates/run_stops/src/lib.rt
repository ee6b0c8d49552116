//! The stop of an adapter, whole: the stop, and behind it what ends whatever is outstanding of it; and the
//! stops that a context of the run brings. (docs/LEGAL-RUN.md)
#![tactic(auto)]

mod laws;
mod stops;
mod tails;

pub use laws::{moves_add, states_are_free, stops_take_room, tails_go_on};
pub use stops::stop_for;
pub use tails::stop_whole;
