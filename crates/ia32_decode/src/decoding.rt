//! Decoding (Intel SDM volume 2, chapter 2).

ghost use Rattle.std.specs.Prelude.{◌≡◌};
ghost use Rattle.codes.specs.Codes.{Gives};
ghost use Rattle.codes.specs.Exact.{IsAtMost};
ghost use Rattle.codes.specs.Readings.{IsPrefixFree};
ghost use Rattle.ia32_decode.specs.Prefixes.{none, read_behind, instruction};
ghost use Rattle.ia32_decode.specs.Decoding.{IsOnlyDecoding, decoded, DecodingIsExact, SpelledIsDecoded};
ghost use Rattle.ia32_decode.specs.Permitted.{PrefixesArePermitted, FloatingPointIsOutside};

use crate::instruction::Instr;
use crate::prefixes::{NONE, is_prefix, takes, with_prefix};
use crate::reading::body;
use codes::Stop;

/// What a front of bytes is.
#[derive(Clone, Copy, Debug, PartialEq, Eq)]
pub enum Decoded {
    /// An instruction, and how many bytes spell it.
    One(Instr, u8),
    /// No instruction begins with the bytes up to the one at this index, the first such.
    Outside(u8),
    /// An instruction begins with these bytes and goes on.
    More,
}

/// Prefixes, each once, and what stands behind them.
#[tactic(auto, unfolding(crate::specs::Prefixes::read_behind))]
#[inline(always)]
fn prefixed(bytes: &[u8]) -> Result<(Instr, &[u8]), Stop>
    ensures { Gives (λ x. (x.0, x.1.now)) result (read_behind none bytes.now) }
{
    let mut prefixes = NONE;
    let mut rest = bytes;
    while let Some((byte, after)) = rest.split_first() {
        if !is_prefix(*byte) {
            return body(prefixes, rest);
        }
        if !takes(prefixes, *byte) {
            return Err(Stop::Outside(rest.len()));
        }
        prefixes = with_prefix(prefixes, *byte);
        rest = after;
    }
    Err(Stop::More)
}

/// The instruction that a front of the bytes spells.
#[tactic(auto, unfolding(crate::specs::Decoding::decoded))]
#[inline]
pub fn decode(bytes: &[u8]) -> Decoded
    // By spelling alone, that is what the bytes are, and nothing else.
    ensures only { IsOnlyDecoding bytes.now result }
    ensures value { result ≡ decoded bytes.now }
{
    match prefixed(bytes) {
        Ok((instruction, rest)) => Decoded::One(instruction, (bytes.len() - rest.len()) as u8),
        Err(Stop::Outside(left)) => Decoded::Outside((bytes.len() - left) as u8),
        Err(Stop::More) => Decoded::More,
    }
}

/// What `decoded` says of bytes is what the spelling of instructions says.
pub fn decoding_is_exact()
    ensures { DecodingIsExact }
{}

/// What spells an instruction decodes to it, whatever is behind it.
pub fn spelled_is_decoded()
    ensures { SpelledIsDecoded }
{}

/// No bytes spell two instructions, and none that spell one begin others that do.
pub fn spelling_is_one()
    ensures { IsPrefixFree instruction }
{}

/// An instruction has at most 15 bytes.
pub fn at_most_fifteen_bytes()
    ensures { IsAtMost instruction 15 }
{}

/// Prefixes stand only where the manual lets them, whatever a row of the tables says.
pub fn prefixes_are_permitted()
    ensures { PrefixesArePermitted }
{}

/// No instruction has an opcode of floating point.
pub fn floating_point_is_outside()
    ensures { FloatingPointIsOutside }
{}
