//! The fields of a log's lines: what stands in them, their text, and reading it.
//!
//! A code (specs/Codes.antt) says which values are written, as what, and how they are read again;
//! codes are made of smaller ones, and so is their exactness (specs/Exact.antt): what is written is
//! read, and what is read was written so. The laws for each way to make a code, and for each field,
//! are in specs/ExactLaws.antt and FieldLaws.antt. A law over all codes is above what a clause can
//! say, so they are lemmas there, and no functions.
#![tactic(auto)]

pub mod field_text;
mod field_values;
pub mod fields;
mod holder_list;
mod line_refusal;
pub mod names;
pub mod scalars;
mod word_list;
mod write;
mod write_list;

pub use field_values::{Cause, Condition, Direction, FaultKind, Handler, Question};
pub use holder_list::Holders;
pub use line_refusal::LineRefusal;
pub use word_list::Words;
pub use write::Write;
pub use write_list::Writes;
