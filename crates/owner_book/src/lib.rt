//! The book of owners: a state of the owner machine, moved by the entries of a log.
//!
//! `Book` is seen as that state (owner_machine's `Owner`). `admit` takes an entry exactly where no rule
//! stands against it, and then the book is what the entry makes; `stop` writes the stop of an adapter and
//! its tail into a log out of its spare.
#![tactic(auto)]

mod adapter_moves;
mod book;
mod context_moves;
mod driver_moves;
mod handler_moves;
mod loan_moves;
mod moves;
mod packet_moves;
mod request_moves;
mod rows;
mod standing;
mod starting;
mod stopping;

pub use book::{Book, Refusal};
pub use owner_rows::{WhichLoans, WhichPackets, WhichRequests};
pub use owner_rules::{Duty, Group};
pub use standing::Standing;
