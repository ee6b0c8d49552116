//! What is on loan in every state of a run: laws of the legal run, each the contract of a function that
//! does nothing.
#![tactic(auto)]

mod laws;

pub use laws::{back_is_live, what_is_lent_lives};
