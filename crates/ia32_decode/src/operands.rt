//! Reading operands and immediates (Intel SDM volume 2, section 2.1).

ghost use Rattle.std.specs.Prelude.{◌≡◌};
ghost use Rattle.codes.specs.Codes.{Gives};
ghost use Rattle.ia32_decode.specs.Operands.{sign_extended, signed_byte, displacement, based, index_of, scale_of, place, offset_alone, immediate};

use crate::forms::Immediate;
use crate::instruction::Operand;
use codes::{Stop, little_endian_2, little_endian_4, octet};

/// A byte as a number of 32 bits with the same sign.
#[inline(always)]
pub fn sign_extended(byte: u8) -> u32
    ensures { result ≡ sign_extended byte }
{
    i32::from(byte.cast_signed()).cast_unsigned()
}

#[tactic(auto, unfolding(crate::specs::Operands::signed_byte))]
#[inline(always)]
fn signed_byte(bytes: &[u8]) -> Result<(u32, &[u8]), Stop>
    ensures { Gives (λ x. (x.0, x.1.now)) result (signed_byte.read bytes.now) }
{
    let (byte, rest) = octet(bytes)?;
    Ok((sign_extended(byte), rest))
}

#[tactic(auto, unfolding(crate::specs::Operands::displacement))]
#[inline(always)]
fn displacement(mode: u8, bytes: &[u8]) -> Result<(u32, &[u8]), Stop>
    ensures { Gives (λ x. (x.0, x.1.now)) result ((displacement mode).read bytes.now) }
{
    match mode {
        0 => Ok((0, bytes)),
        1 => signed_byte(bytes),
        _ => little_endian_4(bytes),
    }
}

/// Memory at a base; but without one, at 32 bits, where the mode is 0 and the base is 5.
#[tactic(auto, unfolding(crate::specs::Operands::based))]
#[inline(always)]
fn based(
    mode: u8,
    base: u8,
    index: Option<u8>,
    scale: u8,
    bytes: &[u8],
) -> Result<(Operand, &[u8]), Stop>
    ensures { Gives (λ x. (x.0, x.1.now)) result ((based mode base index scale).read bytes.now) }
{
    if mode == 0 && base == 5 {
        let (offset, rest) = little_endian_4(bytes)?;
        let operand = Operand::Place {
            base: None,
            index,
            scale,
            offset,
        };
        return Ok((operand, rest));
    }
    let (offset, rest) = displacement(mode, bytes)?;
    let operand = Operand::Place {
        base: Some(base),
        index,
        scale,
        offset,
    };
    Ok((operand, rest))
}

#[inline(always)]
fn index_of(sib: u8) -> Option<u8>
    ensures { result ≡ index_of sib }
{
    let index = sib / 8 % 8;
    if index == 4 { None } else { Some(index) }
}

#[inline(always)]
fn scale_of(sib: u8) -> u8
    ensures { result ≡ scale_of sib }
{
    if sib / 8 % 8 == 4 {
        return 1;
    }
    1 << (sib / 64)
}

/// What a ModRM byte and those after it name.
#[tactic(auto, unfolding(crate::specs::Operands::place))]
#[inline(always)]
pub fn place(modrm: u8, bytes: &[u8]) -> Result<(Operand, &[u8]), Stop>
    ensures { Gives (λ x. (x.0, x.1.now)) result ((place modrm).read bytes.now) }
{
    let mode = modrm / 64;
    let base = modrm % 8;
    if mode == 3 {
        return Ok((Operand::Reg(base), bytes));
    }
    if base == 4 {
        let (sib, rest) = octet(bytes)?;
        return based(mode, sib % 8, index_of(sib), scale_of(sib), rest);
    }
    based(mode, base, None, 1, bytes)
}

/// Memory at an offset alone.
#[tactic(auto, unfolding(crate::specs::Operands::offset_alone))]
#[inline(always)]
pub fn offset_alone(bytes: &[u8]) -> Result<(Operand, &[u8]), Stop>
    ensures { Gives (λ x. (x.0, x.1.now)) result (offset_alone.read bytes.now) }
{
    let (offset, rest) = little_endian_4(bytes)?;
    let operand = Operand::Place {
        base: None,
        index: None,
        scale: 1,
        offset,
    };
    Ok((operand, rest))
}

/// An immediate; one of the operand's size is short behind the prefix 66.
#[tactic(auto, unfolding(crate::specs::Operands::immediate))]
#[inline(always)]
pub fn immediate(kind: Immediate, short: bool, bytes: &[u8]) -> Result<(u32, &[u8]), Stop>
    ensures { Gives (λ x. (x.0, x.1.now)) result ((immediate kind short).read bytes.now) }
{
    match kind {
        Immediate::Absent => Ok((0, bytes)),
        Immediate::One => Ok((1, bytes)),
        Immediate::Byte => {
            let (byte, rest) = octet(bytes)?;
            Ok((u32::from(byte), rest))
        }
        Immediate::SignedByte => signed_byte(bytes),
        Immediate::OperandSize if !short => little_endian_4(bytes),
        Immediate::Word | Immediate::OperandSize => {
            let (word, rest) = little_endian_2(bytes)?;
            Ok((u32::from(word), rest))
        }
        Immediate::Doubleword => little_endian_4(bytes),
    }
}
