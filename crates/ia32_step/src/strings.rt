//! String instructions.

ghost use Rattle.std.specs.Prelude.{◌≡◌};
ghost use Rattle.ia32_step.specs.State.{machine};
ghost use Rattle.ia32_step.specs.Operands.{Leaves};
ghost use Rattle.ia32_step.specs.Strings.{next_of, copied, filled, taken, scanned, compared_strings, once, while_equal, goes_on, counted_down, string_done};

use crate::effects::{Stop, Write};
use crate::operands::read;
use crate::registers::{ECX, EDI, ESI, Regs, part, set_part};
use ia32_arithmetic::{BinaryOp, Flags, Width, binary};
use ia32_decode::{Instr, Repeat};
use nd_mem::Memory;

/// A string instruction.
#[derive(Clone, Copy, Debug, PartialEq, Eq)]
pub enum StringOp {
    Cmps,
    Lods,
    Movs,
    Scas,
    Stos,
}

/// The number of AL, AX, EAX.
const ACCUMULATOR: u8 = 0;

/// The address of the next element.
#[tactic(auto, unfolding(crate::specs::Strings::next_of))]
#[inline]
fn next_of(w: Width, at: u32, f: Flags) -> u32
    ensures { result ≡ next_of w at f }
{
    if f.direction {
        at.wrapping_sub(w.bytes())
    } else {
        at.wrapping_add(w.bytes())
    }
}

/// MOVS
#[tactic(auto, unfolding(crate::specs::Strings::copied))]
#[inline]
fn copied(w: Width, r: &mut Regs, m: &Memory) -> Result<Write, Stop>
    ensures { Leaves result r.new (copied w (machine r.old m.now)) }
{
    let from = r.general[ESI];
    let to = r.general[EDI];
    let v = read(w, from, m)?;
    r.general[ESI] = next_of(w, from, r.flags);
    r.general[EDI] = next_of(w, to, r.flags);
    Ok(Write::Number(w, to, v))
}

/// STOS
#[tactic(auto, unfolding(crate::specs::Strings::filled))]
#[inline]
fn filled(w: Width, r: &mut Regs) -> Result<Write, Stop>
    ensures { Leaves result r.new (filled w r.old) }
{
    let to = r.general[EDI];
    let v = part(w, ACCUMULATOR, r);
    r.general[EDI] = next_of(w, to, r.flags);
    Ok(Write::Number(w, to, v))
}

/// LODS
#[tactic(auto, unfolding(crate::specs::Strings::taken))]
#[inline]
fn taken(w: Width, r: &mut Regs, m: &Memory) -> Result<Write, Stop>
    ensures { Leaves result r.new (taken w (machine r.old m.now)) }
{
    let from = r.general[ESI];
    let v = read(w, from, m)?;
    r.general[ESI] = next_of(w, from, r.flags);
    set_part(w, ACCUMULATOR, v, r);
    Ok(Write::Absent)
}

/// SCAS
#[tactic(auto, unfolding(crate::specs::Strings::scanned))]
#[inline]
fn scanned(w: Width, r: &mut Regs, m: &Memory) -> Result<Write, Stop>
    ensures { Leaves result r.new (scanned w (machine r.old m.now)) }
{
    let at = r.general[EDI];
    let a = part(w, ACCUMULATOR, r);
    let b = read(w, at, m)?;
    r.general[EDI] = next_of(w, at, r.flags);
    r.flags = binary(BinaryOp::Sub, w, a, b, r.flags).flags;
    Ok(Write::Absent)
}

/// CMPS
#[tactic(auto, unfolding(crate::specs::Strings::compared_strings))]
#[inline]
fn compared_strings(w: Width, r: &mut Regs, m: &Memory) -> Result<Write, Stop>
    ensures { Leaves result r.new (compared_strings w (machine r.old m.now)) }
{
    let from = r.general[ESI];
    let to = r.general[EDI];
    let a = read(w, from, m)?;
    let b = read(w, to, m)?;
    r.general[ESI] = next_of(w, from, r.flags);
    r.general[EDI] = next_of(w, to, r.flags);
    r.flags = binary(BinaryOp::Sub, w, a, b, r.flags).flags;
    Ok(Write::Absent)
}

/// One iteration.
#[tactic(auto, unfolding(crate::specs::Strings::once))]
#[inline]
fn once(op: StringOp, w: Width, r: &mut Regs, m: &Memory) -> Result<Write, Stop>
    ensures { Leaves result r.new (once op w (machine r.old m.now)) }
{
    match op {
        StringOp::Cmps => compared_strings(w, r, m),
        StringOp::Lods => taken(w, r, m),
        StringOp::Movs => copied(w, r, m),
        StringOp::Scas => scanned(w, r, m),
        StringOp::Stos => filled(w, r),
    }
}

#[inline]
fn while_equal(repeat: Repeat, zero: bool) -> bool
    ensures { result ≡ while_equal repeat zero }
{
    match repeat {
        Repeat::F2 => !zero,
        Repeat::F3 | Repeat::Absent => zero,
    }
}

/// Whether the repeat goes on behind an iteration, as far as the flags say.
#[tactic(auto, unfolding(crate::specs::Strings::goes_on))]
#[inline]
fn goes_on(op: StringOp, repeat: Repeat, zero: bool) -> bool
    ensures { result ≡ goes_on op repeat zero }
{
    match op {
        StringOp::Cmps | StringOp::Scas => while_equal(repeat, zero),
        StringOp::Lods | StringOp::Movs | StringOp::Stos => true,
    }
}

/// One iteration less is left. EIP stays at the instruction before the last.
#[tactic(auto, unfolding(crate::specs::Strings::counted_down))]
#[inline]
fn count_down(start: u32, more: bool, r: &mut Regs)
    ensures { r.new ≡ counted_down start more r.old }
{
    let left = r.general[ECX].wrapping_sub(1);
    r.general[ECX] = left;
    if left != 0 && more {
        r.eip = start;
    }
}

/// MOVS, STOS, LODS, SCAS, CMPS, where the instruction begins at start.
#[tactic(auto, unfolding(crate::specs::Strings::string_done))]
#[inline]
pub fn string_done(
    op: StringOp,
    i: &Instr,
    w: Width,
    start: u32,
    r: &mut Regs,
    m: &Memory,
) -> Result<Write, Stop>
    ensures { Leaves result r.new (string_done op i.now w start (machine r.old m.now)) }
{
    match i.repeat {
        Repeat::Absent => once(op, w, r, m),
        Repeat::F2 | Repeat::F3 => {
            if r.general[ECX] == 0 {
                return Ok(Write::Absent);
            }
            let write = once(op, w, r, m)?;
            let more = goes_on(op, i.repeat, r.flags.zero);
            count_down(start, more, r);
            Ok(write)
        }
    }
}
