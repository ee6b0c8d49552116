//! Jumps, calls, returns and loops.

ghost use Rattle.std.specs.Prelude.{◌≡◌};
ghost use Rattle.ia32_step.specs.State.{machine};
ghost use Rattle.ia32_step.specs.Operands.{Leaves};
ghost use Rattle.ia32_step.specs.Control.{advanced, target_of, gone, gone_if, called, returned, left, looped};

use crate::effects::{Stop, Write};
use crate::operands::{load, read};
use crate::registers::{EBP, ECX, ESP, Regs};
use crate::stack::push;
use ia32_arithmetic::Width;
use ia32_decode::{Instr, Operand};
use nd_mem::Memory;

/// EIP goes on by so much.
#[inline(always)]
pub fn advance(n: u32, r: &mut Regs)
    ensures { r.new ≡ advanced n r.old }
{
    r.eip = r.eip.wrapping_add(n);
}

/// Where a jump or a call goes.
#[tactic(auto, unfolding(crate::specs::Control::target_of))]
#[inline(always)]
fn target_of(i: &Instr, r: &Regs, m: &Memory) -> Result<u32, Stop>
    ensures { result ≡ target_of i.now (machine r.now m.now) }
{
    match i.first {
        Operand::Imm => Ok(r.eip.wrapping_add(i.imm)),
        Operand::Absent | Operand::Reg(_) | Operand::Place { .. } => load(
            Width::Doubleword,
            &i.first,
            i.imm,
            r,
            m,
        ),
    }
}

/// JMP
#[tactic(auto, unfolding(crate::specs::Control::gone))]
#[inline(always)]
pub fn gone(i: &Instr, r: &mut Regs, m: &Memory) -> Result<Write, Stop>
    ensures { Leaves result r.new (gone i.now (machine r.old m.now)) }
{
    r.eip = target_of(i, r, m)?;
    Ok(Write::Absent)
}

/// Jcc, JECXZ
#[tactic(auto, unfolding(crate::specs::Control::gone_if))]
#[inline(always)]
pub fn gone_if(c: bool, i: &Instr, r: &mut Regs) -> Result<Write, Stop>
    ensures { Leaves result r.new (gone_if c i.now r.old) }
{
    if c {
        advance(i.imm, r);
    }
    Ok(Write::Absent)
}

/// CALL
#[tactic(auto, unfolding(crate::specs::Control::called))]
#[inline]
pub fn called(i: &Instr, r: &mut Regs, m: &Memory) -> Result<Write, Stop>
    ensures { Leaves result r.new (called i.now (machine r.old m.now)) }
{
    let next = r.eip;
    r.eip = target_of(i, r, m)?;
    Ok(push(Width::Doubleword, next, r))
}

/// RET
#[tactic(auto, unfolding(crate::specs::Control::returned))]
#[inline]
pub fn returned(i: &Instr, r: &mut Regs, m: &Memory) -> Result<Write, Stop>
    ensures { Leaves result r.new (returned i.now (machine r.old m.now)) }
{
    let top = r.general[ESP];
    r.eip = read(Width::Doubleword, top, m)?;
    r.general[ESP] = top.wrapping_add(4).wrapping_add(i.imm);
    Ok(Write::Absent)
}

/// LEAVE
#[tactic(auto, unfolding(crate::specs::Control::left))]
#[inline]
pub fn left(r: &mut Regs, m: &Memory) -> Result<Write, Stop>
    ensures { Leaves result r.new (left (machine r.old m.now)) }
{
    let top = r.general[EBP];
    let v = read(Width::Doubleword, top, m)?;
    r.general[ESP] = top.wrapping_add(4);
    r.general[EBP] = v;
    Ok(Write::Absent)
}

/// LOOP, LOOPE and LOOPNE, whose further condition is `c`.
#[tactic(auto, unfolding(crate::specs::Control::looped))]
#[inline]
pub fn looped(c: bool, i: &Instr, r: &mut Regs) -> Result<Write, Stop>
    ensures { Leaves result r.new (looped c i.now r.old) }
{
    let count = r.general[ECX].wrapping_sub(1);
    r.general[ECX] = count;
    if count != 0 && c {
        r.eip = r.eip.wrapping_add(i.imm);
    }
    Ok(Write::Absent)
}
