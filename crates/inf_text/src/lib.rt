//! INF files (Windows Driver Kit, "General Syntax Rules for INF Files"): their characters, lines and
//! sections.
#![tactic(auto)]

mod characters;
mod joining;
mod laws;
mod line;
mod name;
mod parts;
mod quotes;
mod refusal;
mod sections;
mod statement;
mod text;

pub use laws::{each_section_comes_once, laid_out_is_read, pieces_are_gathered, utf16_is_text};
pub use line::Line;
pub use name::{Name, is_same, is_word};
pub use parts::part_at;
pub use refusal::InfRefusal;
pub use sections::Inf;
