//! The text of a log: entries as lines, written and read exactly.
#![tactic(auto)]

mod entry;
mod kinds;
mod line_text;
mod lines;
mod log;
mod parties;
mod refusal;

pub use entry::Entry;
pub use line_text::{put_line, text};
pub use log::{
    Log, held_entries_fit, kinds_are_found, no_text_holds_lf, one_entry_a_line, read_log,
};
pub use log_fields::names::{import_name, names_are_found};
pub use log_fields::{
    Cause, Condition, Direction, FaultKind, Handler, Holders, Question, Words, Write, Writes,
};
pub use parties::{of_adapter, of_context, of_driver};
pub use refusal::LogRefusal;
