//! Prefixes before an instruction (Intel SDM volume 2, section 2.1.1).

ghost use Rattle.std.specs.Prelude.{◌≡◌};
ghost use Rattle.ia32_decode.specs.Rows.{is_absent};
ghost use Rattle.ia32_decode.specs.Prefixes.{is_prefix, repeat_of, has, with_prefix, is_dead, takes};

use crate::instruction::Repeat;

/// The prefixes before an instruction.
#[derive(Clone, Copy)]
pub struct Prefixes {
    /// 66
    pub operand_size: bool,
    /// F0
    pub lock: bool,
    /// F2 or F3
    pub repeat: Repeat,
}

/// None.
pub const NONE: Prefixes = Prefixes {
    operand_size: false,
    lock: false,
    repeat: Repeat::Absent,
};

#[inline(always)]
pub fn is_absent(repeat: Repeat) -> bool
    ensures { result ≡ is_absent repeat }
{
    matches!(repeat, Repeat::Absent)
}

#[inline(always)]
pub fn is_prefix(byte: u8) -> bool
    ensures { result ≡ is_prefix byte }
{
    matches!(byte, 0x66 | 0xF0 | 0xF2 | 0xF3)
}

#[inline(always)]
fn repeat_of(prefix: u8) -> Repeat
    ensures { result ≡ repeat_of prefix }
{
    match prefix {
        0xF2 => Repeat::F2,
        0xF3 => Repeat::F3,
        _ => Repeat::Absent,
    }
}

/// Is the prefix, or the other one that repeats, among these?
#[tactic(auto, unfolding(crate::specs::Prefixes::has))]
#[inline(always)]
fn has(prefixes: Prefixes, prefix: u8) -> bool
    ensures { result ≡ has prefixes prefix }
{
    match prefix {
        0x66 => prefixes.operand_size,
        0xF0 => prefixes.lock,
        _ => !is_absent(prefixes.repeat),
    }
}

#[tactic(auto, unfolding(crate::specs::Prefixes::with_prefix))]
#[inline(always)]
pub fn with_prefix(prefixes: Prefixes, prefix: u8) -> Prefixes
    ensures { result ≡ with_prefix prefixes prefix }
{
    let repeat = if is_absent(prefixes.repeat) {
        repeat_of(prefix)
    } else {
        prefixes.repeat
    };
    Prefixes {
        operand_size: prefixes.operand_size || prefix == 0x66,
        lock: prefixes.lock || prefix == 0xF0,
        repeat,
    }
}

/// Does no row permit these together?
#[inline(always)]
fn is_dead(prefixes: Prefixes) -> bool
    ensures { result ≡ is_dead prefixes }
{
    prefixes.lock && !is_absent(prefixes.repeat)
}

/// May the prefix stand behind these?
#[inline(always)]
pub fn takes(prefixes: Prefixes, prefix: u8) -> bool
    ensures { result ≡ takes prefixes prefix }
{
    !has(prefixes, prefix) && !is_dead(with_prefix(prefixes, prefix))
}
