//! The flags.

ghost use Rattle.std.specs.Prelude.{◌≡◌, ◌≤◌, ◌<◌};
ghost use Rattle.ia32_arithmetic.specs.Widths.{size};
ghost use Rattle.ia32_arithmetic.specs.Flags.{bit_of, has_even_parity, with_result, word_of, of_word, clear};

use crate::bits::has_bit;
use crate::widths::{Width, is_negative};

/// The status flags of EFLAGS and DF (Intel SDM volume 1, "EFLAGS Register").
#[derive(Clone, Copy, Debug, PartialEq, Eq)]
pub struct Flags {
    pub carry: bool,
    pub parity: bool,
    pub auxiliary: bool,
    pub zero: bool,
    pub sign: bool,
    pub direction: bool,
    pub overflow: bool,
}

/// What an operation comes to.
#[derive(Clone, Copy, Debug, PartialEq, Eq)]
pub struct Computed {
    pub value: u32,
    pub flags: Flags,
}

/// A flag as the bit of that weight.
#[inline(always)]
fn bit_of(flag: bool, weight: u32) -> u32
    ensures value { result ≡ bit_of flag weight }
    ensures high { result ≤ weight }
{
    if flag { weight } else { 0 }
}

impl Flags {
    /// Each is clear.
    pub fn new() -> Self
        ensures { result ≡ clear }
    {
        Flags {
            carry: false,
            parity: false,
            auxiliary: false,
            zero: false,
            sign: false,
            direction: false,
            overflow: false,
        }
    }

    /// The low word of EFLAGS, with 1 in bits 1 and 9 (IF) and 0 in what is not kept.
    #[tactic(auto, unfolding(crate::specs::Flags::word_of))]
    pub fn to_word(self) -> u32
        ensures value { result ≡ word_of self }
        ensures high { result < 0x1000 }
    {
        0x202
            + bit_of(self.carry, 1)
            + bit_of(self.parity, 4)
            + bit_of(self.auxiliary, 0x10)
            + bit_of(self.zero, 0x40)
            + bit_of(self.sign, 0x80)
            + bit_of(self.direction, 0x400)
            + bit_of(self.overflow, 0x800)
    }

    /// The flags of a word of EFLAGS.
    #[tactic(auto, unfolding(crate::specs::Flags::of_word))]
    pub fn of_word(word: u32) -> Self
        ensures { result ≡ of_word word }
    {
        Flags {
            carry: has_bit(word, 0),
            parity: has_bit(word, 2),
            auxiliary: has_bit(word, 4),
            zero: has_bit(word, 6),
            sign: has_bit(word, 7),
            direction: has_bit(word, 10),
            overflow: has_bit(word, 11),
        }
    }
}

/// PF of a result.
#[tactic(auto, unfolding(crate::specs::Flags::has_even_parity))]
#[inline(always)]
fn has_even_parity(n: u32) -> bool
    ensures { result ≡ has_even_parity n }
{
    (n % 0x100).count_ones() % 2 == 0
}

/// The flags with SF, ZF and PF by a result.
#[tactic(auto, unfolding(crate::specs::Flags::with_result))]
#[inline(always)]
pub(crate) fn with_result(w: Width, n: u32, flags: Flags) -> Flags
    ensures { result ≡ with_result w n flags }
{
    Flags {
        sign: is_negative(w, n),
        zero: n == 0,
        parity: has_even_parity(n),
        ..flags
    }
}
