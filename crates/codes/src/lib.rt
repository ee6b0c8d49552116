//! Codes: which bytes spell a value, and how it is read from the front of bytes.
//!
//! A code (specs/Codes.antt) is a relation, `spells`, and a reader. Codes are made of smaller ones, and
//! so is their exactness: what is spelled is read, and what the reader says is true. The laws for each
//! way to make a code are in specs/Laws.antt, and what follows of an exact code (what is read is the
//! only reading; no spelling begins another) too. A law over all codes is above what a clause can say,
//! so they are lemmas there, and no functions.
//!
//! A function that reads a code in a program answers `Result<(X, &[u8]), Stop>`: the value and the
//! bytes behind it. Its clause says that it gives what the code's reader gives (`Gives`).
#![tactic(auto)]

ghost use Rattle.std.specs.Prelude.{◌≡◌};
ghost use Rattle.codes.specs.Codes.{Gives};
ghost use Rattle.codes.specs.Numbers.{octet, little_endian_2, little_endian_4};

/// Why no value is read from the front of bytes.
#[derive(Clone, Copy, Debug, PartialEq, Eq)]
pub enum Stop {
    /// Nothing that is spelled goes on at a byte. So many bytes are left, with that one.
    Outside(usize),
    /// Something that is spelled goes on behind all of the bytes.
    More,
}

/// A byte.
#[tactic(auto, unfolding(crate::specs::Numbers::octet))]
#[inline(always)]
pub fn octet(bytes: &[u8]) -> Result<(u8, &[u8]), Stop>
    ensures { Gives (λ x. (x.0, x.1.now)) result (octet.read bytes.now) }
{
    match bytes.split_first() {
        Some((byte, rest)) => Ok((*byte, rest)),
        None => Err(Stop::More),
    }
}

/// A number of two bytes, the low one first.
#[tactic(auto, unfolding(crate::specs::Numbers::octet, crate::specs::Numbers::little_endian_2))]
#[inline(always)]
pub fn little_endian_2(bytes: &[u8]) -> Result<(u16, &[u8]), Stop>
    ensures { Gives (λ x. (x.0, x.1.now)) result (little_endian_2.read bytes.now) }
{
    match bytes {
        [a, b, rest @ ..] => Ok((u16::from_le_bytes([*a, *b]), rest)),
        _ => Err(Stop::More),
    }
}

/// A number of four bytes, the low one first.
#[tactic(auto, unfolding(crate::specs::Numbers::octet, crate::specs::Numbers::little_endian_4))]
#[inline(always)]
pub fn little_endian_4(bytes: &[u8]) -> Result<(u32, &[u8]), Stop>
    ensures { Gives (λ x. (x.0, x.1.now)) result (little_endian_4.read bytes.now) }
{
    match bytes {
        [a, b, c, d, rest @ ..] => Ok((u32::from_le_bytes([*a, *b, *c, *d]), rest)),
        _ => Err(Stop::More),
    }
}
