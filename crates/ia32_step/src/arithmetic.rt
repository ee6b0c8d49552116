//! Arithmetic, logic and shifts of operands. (In this file and the next ones EIP of the registers
//! is already that of the next instruction.)

ghost use Rattle.std.specs.Prelude.{◌≡◌, ◌<◌};
ghost use Rattle.ia32_arithmetic.specs.Widths.{size};
ghost use Rattle.ia32_step.specs.State.{machine, left};
ghost use Rattle.ia32_step.specs.Operands.{IsWrite, Leaves};
ghost use Rattle.ia32_step.specs.Arithmetic.{computed, changed, compared, altered, shifted, double_shifted};

use crate::effects::{Stop, Write, store};
use crate::operands::load;
use crate::registers::Regs;
use ia32_arithmetic::{
    BinaryOp, Computed, DoubleShiftOp, ShiftOp, UnaryOp, Width, binary, double_shift, shift, unary,
};
use ia32_decode::Instr;
use nd_mem::Memory;

/// The first operand becomes the value.
#[inline(always)]
fn computed(i: &Instr, w: Width, c: Computed, r: &mut Regs) -> Write
    requires { c.value < size w }
    ensures value { left r.new result ≡ computed i.now w r.old c }
    ensures write { IsWrite result }
{
    store(w, &i.first, c.value, c.flags, r)
}

/// ADD, ADC, AND, OR, SBB, SUB, XOR
#[tactic(auto, unfolding(crate::specs::Arithmetic::changed))]
#[inline]
pub fn changed(op: BinaryOp, i: &Instr, w: Width, r: &mut Regs, m: &Memory) -> Result<Write, Stop>
    ensures { Leaves result r.new (changed op i.now w (machine r.old m.now)) }
{
    let a = load(w, &i.first, i.imm, r, m)?;
    let b = load(w, &i.second, i.imm, r, m)?;
    Ok(computed(i, w, binary(op, w, a, b, r.flags), r))
}

/// CMP, TEST: the flags of SUB and AND alone.
#[tactic(auto, unfolding(crate::specs::Arithmetic::compared))]
#[inline]
pub fn compared(op: BinaryOp, i: &Instr, w: Width, r: &mut Regs, m: &Memory) -> Result<Write, Stop>
    ensures { Leaves result r.new (compared op i.now w (machine r.old m.now)) }
{
    let a = load(w, &i.first, i.imm, r, m)?;
    let b = load(w, &i.second, i.imm, r, m)?;
    r.flags = binary(op, w, a, b, r.flags).flags;
    Ok(Write::Absent)
}

/// INC, DEC, NEG, NOT
#[tactic(auto, unfolding(crate::specs::Arithmetic::altered))]
#[inline]
pub fn altered(op: UnaryOp, i: &Instr, w: Width, r: &mut Regs, m: &Memory) -> Result<Write, Stop>
    ensures { Leaves result r.new (altered op i.now w (machine r.old m.now)) }
{
    let a = load(w, &i.first, i.imm, r, m)?;
    Ok(computed(i, w, unary(op, w, a, r.flags), r))
}

/// SHL, SHR, SAR, ROL, ROR, RCL, RCR by the second operand.
#[tactic(auto, unfolding(crate::specs::Arithmetic::shifted))]
pub fn shifted(op: ShiftOp, i: &Instr, w: Width, r: &mut Regs, m: &Memory) -> Result<Write, Stop>
    ensures { Leaves result r.new (shifted op i.now w (machine r.old m.now)) }
{
    let a = load(w, &i.first, i.imm, r, m)?;
    let n = load(w, &i.second, i.imm, r, m)?;
    Ok(computed(i, w, shift(op, w, a, n, r.flags), r))
}

/// SHLD, SHRD by a count.
#[tactic(auto, unfolding(crate::specs::Arithmetic::double_shifted))]
pub fn double_shifted(
    op: DoubleShiftOp,
    n: u32,
    i: &Instr,
    w: Width,
    r: &mut Regs,
    m: &Memory,
) -> Result<Write, Stop>
    ensures { Leaves result r.new (double_shifted op n i.now w (machine r.old m.now)) }
{
    let a = load(w, &i.first, i.imm, r, m)?;
    let b = load(w, &i.second, i.imm, r, m)?;
    Ok(computed(i, w, double_shift(op, w, a, b, n, r.flags), r))
}
