//! The lines of assembler source: what each says.
//!
//! The grammar is this project's own (docs/ASSEMBLER.md); mnemonics, operands and their order are
//! those of Intel SDM volume 2. A line's meaning is a function of its text (specs/Lines.antt), over the
//! words and parts of the line; labels and imports stand in it by their names.
#![tactic(auto)]

mod argument;
mod line;
mod mnemonic;
mod mnemonic_table;
mod parts;
mod register;
mod statement;
mod table_name;
mod value;

pub use argument::{Argument, Index, Place};
pub use line::{Content, line_content};
pub use mnemonic::Mnemonic;
pub use register::Register;
pub use statement::{Operands, Prefix, Statement};
pub use value::{Value, hex_digit};
