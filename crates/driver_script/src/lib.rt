//! Scripts of protocol drivers: text that names the adapters, their parameters and, for each driver,
//! what it does line by line (docs/SCRIPT.md; the format is this project's own).
//!
//! A line is a form of words (specs/Forms.antt): which words state a value, and as what they are
//! read. Which items the lines of a script are, in which order, is in specs/Scripts.antt.
#![tactic(auto)]

mod adapter_lines;
mod fields;
mod front;
mod keywords;
mod laws;
mod refusal;
mod script_file;
mod section_lines;
mod statement;

pub use adapter_lines::{AdapterLine, ParamLine};
pub use laws::scripts_are_sound;
pub use refusal::ScriptRefusal;
pub use script_file::Script;
pub use section_lines::Line;
