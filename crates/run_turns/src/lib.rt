//! A context of a run goes on: a turn, and what ends it. (docs/LEGAL-RUN.md)
#![tactic(auto)]

mod turns;

pub use turns::{Reached, go_on};
