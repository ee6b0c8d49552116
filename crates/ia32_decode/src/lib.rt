//! The integer instructions of IA-32 in 32-bit flat mode, decoded (Intel SDM volume 2).
//!
//! The opcode maps are tables (`first_map.rt`, `second_map.rt`, `groups.rt`), in the notation of
//! Intel's own (`forms.rt`). The spelling of instructions is a grammar over them (specs/), a code in
//! the sense of the crate `codes`.
#![tactic(auto)]

mod decoding;
mod encoding;
mod first_map;
mod forms;
mod groups;
mod instruction;
mod operands;
mod prefixes;
mod reading;
mod rows;
mod second_map;
mod spelling;

pub use decoding::{
    Decoded, at_most_fifteen_bytes, decode, decoding_is_exact, floating_point_is_outside,
    prefixes_are_permitted, spelled_is_decoded, spelling_is_one,
};
pub use encoding::{chosen_is_one, encode};
pub use instruction::{Condition, Instr, Op, Operand, Repeat};
pub use spelling::Spelling;
