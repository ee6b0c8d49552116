//! The bytes of single lines of source, where labels and the words of imports stand by tables.
//!
//! How many bytes a line has does not hang on where labels stand (specs/Made.antt): an instruction is
//! bytes into which the addresses of its labels are put. What it is that bytes are those of a line is a
//! relation (specs/Pieces.antt), and why a line has none is another (specs/Refusals.antt).
#![tactic(auto)]

mod excluding;
mod made;
mod numbers;
mod octets;
mod piece;
mod refused;
mod table;

pub use excluding::{bytes_exclude_refusal, made_is_one, piece_is_one, reason_is_one};
pub use made::{Made, made_in, size_in};
pub use piece::{MOST, Met, TEXT, Tables, put_content, put_line};
pub use refused::Refused;
pub use table::Table;
