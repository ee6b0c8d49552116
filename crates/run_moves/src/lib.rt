//! A run while it goes on: its contexts, its book, its world, its course, and the log of its entries.
//! Each move writes one entry that may stand, out of the log's spare, and leaves the state behind it.
//! (docs/LEGAL-RUN.md)
#![tactic(auto)]

mod contexts;
mod drivers;
mod endings;
mod running;
mod stops;

pub use running::Running;
