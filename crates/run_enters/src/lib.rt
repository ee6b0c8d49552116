//! Enters of a run: a handler that is owed is entered, with what stands in front of it and what must
//! stand behind it. (docs/LEGAL-RUN.md)
#![tactic(auto)]

mod alone;
mod asks;
mod enters;
mod homes;
mod laws;
mod loans;
mod prepared;
mod resets;

pub use enters::{enter, enter_entry, enter_handler};
pub use laws::all_are_free;
