//! Enters: a handler that is owed begins in a free context, with its level, its stack and its words.
//! (Windows DDK, the reference page of each Miniport function; docs/LEGAL-RUN.md.)
#![tactic(auto)]

mod enters;
mod places;
mod stacks;
mod takes;

pub use enters::{Entering, enter};
pub use places::{Due, address_of, due_of, level_of};
pub use stacks::{begin_registers, begin_stack, stack_pointer};
