//! The arithmetic of IA-32's instructions: what operations on numbers of 8, 16 and 32 bits come to,
//! and which flags they set (Intel SDM volume 2, the operations of each instruction and "Flags
//! Affected"; volume 1, appendix A).
//!
//! A number of a width is a `u32` below its size. A flag that Intel leaves undefined keeps its value.
#![tactic(auto)]

mod bits;
mod flags;
mod products;
mod shifts;
mod sums;
mod widths;

pub use bits::{BitOp, change_bit, has_bit, highest_bit, lowest_bit, swap_bytes};
pub use flags::{Computed, Flags};
pub use products::{Product, Quotient, divide, divide_signed, multiply, multiply_signed};
pub use shifts::{DoubleShiftOp, ShiftOp, double_shift, shift};
pub use sums::{BinaryOp, UnaryOp, binary, unary};
pub use widths::{Width, is_negative, sign_extended};
