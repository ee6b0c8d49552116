//! What a call of an import answers: its level and the number of its words are judged, and then its
//! group's crate serves it. (What each import answers: docs/IMPORTS.md.)
#![tactic(auto)]

mod answers;
mod groups;

pub use answers::{answer, resumed};
