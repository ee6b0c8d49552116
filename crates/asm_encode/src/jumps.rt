//! Jumps and calls to an address (Intel SDM volume 2, the pages of CALL, Jcc, JMP, JECXZ and LOOPcc).

ghost use Rattle.std.specs.Prelude.{◌≡◌};
ghost use Rattle.ia32_fields.specs.Jumps.{bits_of};
ghost use Rattle.asm_encode.specs.Jumps.{jump_of};

use ia32_decode::{Condition, Op};

/// How a jump is spelled: by its opcode, and then the displacement from its end.
#[derive(Clone, Copy)]
pub enum Jump {
    /// Of four bytes.
    Near(u8),
    /// Of four bytes, behind 0F and the opcode.
    Conditional(u8),
    /// Of a byte with its sign.
    Short(u8),
}

/// A condition's four bits in an opcode.
fn bits_of(condition: Condition) -> u8
    ensures { result ≡ bits_of condition }
{
    match condition {
        Condition::Overflow => 0,
        Condition::NotOverflow => 1,
        Condition::Below => 2,
        Condition::AboveOrEqual => 3,
        Condition::Equal => 4,
        Condition::NotEqual => 5,
        Condition::BelowOrEqual => 6,
        Condition::Above => 7,
        Condition::Sign => 8,
        Condition::NotSign => 9,
        Condition::Parity => 10,
        Condition::NotParity => 11,
        Condition::Less => 12,
        Condition::GreaterOrEqual => 13,
        Condition::LessOrEqual => 14,
        Condition::Greater => 15,
    }
}

/// How the jump that an operation is, is spelled. Of two forms the one with four bytes is taken.
pub fn jump_of(op: Op) -> Option<Jump>
    ensures { result ≡ jump_of op }
{
    match op {
        Op::Call => Some(Jump::Near(0xE8)),
        Op::Jmp => Some(Jump::Near(0xE9)),
        Op::Jcc(condition) => Some(Jump::Conditional(0x80 + bits_of(condition))),
        Op::Loopne => Some(Jump::Short(0xE0)),
        Op::Loope => Some(Jump::Short(0xE1)),
        Op::Loop => Some(Jump::Short(0xE2)),
        Op::Jecxz => Some(Jump::Short(0xE3)),
        _ => None,
    }
}
