//! Laws that the pieces of a run need where they answer calls and read guest memory: each is the contract
//! of a function that does nothing.
#![tactic(auto)]

mod costs;
mod memory;
mod places;
mod returns;

pub use costs::costs_are_small;
pub use memory::memory_stays_readable;
pub use places::own_places_are_readable;
pub use returns::calls_return;
