//! Operations: a mnemonic and operands, without their numbers.

ghost use Rattle.std.specs.Prelude.{◌≡◌};
ghost use Rattle.asm_encode.specs.Operations.{low, is_word, operand_of, width_of, agreed, both, is_absent, is_value, is_counter, is_count, is_in_memory, has_memory};

use asm_lines::{Index, Mnemonic, Prefix, Register};
use ia32_decode::Operand;

/// An operand. Its number, if it has one, is beside the operation: at most one operand is a value, and
/// at most one is in memory.
#[derive(Clone, Copy)]
pub enum Given {
    Absent,
    Register(Register),
    Value,
    /// Memory of so many bytes, at an offset.
    Memory {
        width: u8,
        base: Option<u8>,
        index: Option<Index>,
    },
}

/// An instruction as it is written, without its numbers.
#[derive(Clone, Copy)]
pub struct Operation {
    pub prefix: Prefix,
    pub mnemonic: Mnemonic,
    pub first: Given,
    pub second: Given,
    pub third: Given,
}

/// The low 32 bits.
pub fn low(number: u64) -> u32
    ensures { result ≡ low number }
{
    (number % 0x1_0000_0000) as u32
}

pub fn is_word(number: u64) -> bool
    ensures { result ≡ is_word number }
{
    number < 0x1_0000_0000
}

/// The operand of an instruction, with this offset where it is in memory.
pub fn operand_of(given: Given, offset: u32) -> Operand
    ensures { result ≡ operand_of given offset }
{
    match given {
        Given::Absent => Operand::Absent,
        Given::Register(register) => Operand::Reg(register.number),
        Given::Value => Operand::Imm,
        Given::Memory {
            base,
            index: None,
            ..
        } => Operand::Place {
            base,
            index: None,
            scale: 1,
            offset,
        },
        Given::Memory {
            base,
            index: Some(index),
            ..
        } => Operand::Place {
            base,
            index: Some(index.register),
            scale: index.scale,
            offset,
        },
    }
}

/// How many bytes an operand has, if it says so.
pub fn width_of(given: Given) -> Option<u8>
    ensures { result ≡ width_of given }
{
    match given {
        Given::Register(register) => Some(register.width),
        Given::Memory { width, .. } => Some(width),
        _ => None,
    }
}

/// The width of an operation: that of its operands, or four bytes where none has one.
pub fn agreed(first: Option<u8>, second: Option<u8>) -> Option<u8>
    ensures { result ≡ agreed first second }
{
    match (first, second) {
        (None, None) => Some(4),
        (Some(width), None) => Some(width),
        (None, Some(width)) => Some(width),
        (Some(width), Some(other)) => { if width == other { Some(width) } else { None } }
    }
}

/// The width that both operands have.
pub fn both(first: Option<u8>, second: Option<u8>) -> Option<u8>
    ensures { result ≡ both first second }
{
    match (first, second) {
        (Some(width), Some(other)) if width == other => Some(width),
        _ => None,
    }
}

pub fn is_absent(given: Given) -> bool
    ensures { result ≡ is_absent given }
{
    matches!(given, Given::Absent)
}

pub fn is_value(given: Given) -> bool
    ensures { result ≡ is_value given }
{
    matches!(given, Given::Value)
}

/// Whether the operand is CL.
pub fn is_counter(given: Given) -> bool
    ensures { result ≡ is_counter given }
{
    match given {
        Given::Register(register) => register.width == 1 && register.number == 1,
        _ => false,
    }
}

/// Whether the operand is a shift's count: a value or CL.
pub fn is_count(given: Given) -> bool
    ensures { result ≡ is_count given }
{
    is_value(given) || is_counter(given)
}

pub fn is_in_memory(given: Given) -> bool
    ensures { result ≡ is_in_memory given }
{
    matches!(given, Given::Memory { .. })
}

/// Whether the first or the second operand is in memory.
pub fn has_memory(operation: Operation) -> bool
    ensures { result ≡ has_memory operation }
{
    is_in_memory(operation.first) || is_in_memory(operation.second)
}
