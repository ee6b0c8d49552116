//! Writes to guest memory as a log tells them: what is not mapped takes none.
#![tactic(auto)]

mod puts;

pub use puts::{put, put_all};
