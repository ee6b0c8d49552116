//! Moves, exchanges and extensions.

ghost use Rattle.std.specs.Prelude.{◌≡◌, ◌≤◌, ◌<◌};
ghost use Rattle.ia32_arithmetic.specs.Widths.{size};
ghost use Rattle.ia32_step.specs.State.{machine, left};
ghost use Rattle.ia32_step.specs.Operands.{IsWrite, Leaves};
ghost use Rattle.ia32_step.specs.Moves.{into_first, moved, exchanged, exchanged_added, exchanged_if, compared_exchanged, loaded_address, moved_zero, moved_sign, narrower, converted, converted_double, moved_if, set_if, swapped_bytes};

use crate::effects::{Stop, Write, address_in, put, store};
use crate::operands::load;
use crate::registers::{Regs, part, set_part};
use ia32_arithmetic::{BinaryOp, Width, binary, is_negative, sign_extended, swap_bytes};
use ia32_decode::Instr;
use nd_mem::Memory;

/// The number of AL, AX, EAX.
const ACCUMULATOR: u8 = 0;

/// The number of DX, EDX.
const DATA: u8 = 2;

/// The first operand becomes the number, and the flags stay.
#[inline(always)]
fn into_first(i: &Instr, w: Width, v: u32, r: &mut Regs) -> Write
    requires { v < size w }
    ensures value { left r.new result ≡ into_first i.now w v r.old }
    ensures write { IsWrite result }
{
    let at = address_in(&i.first, r);
    put(w, &i.first, at, v, r, Write::Absent)
}

/// MOV
#[tactic(auto, unfolding(crate::specs::Moves::moved))]
#[inline(always)]
pub fn moved(i: &Instr, w: Width, r: &mut Regs, m: &Memory) -> Result<Write, Stop>
    ensures { Leaves result r.new (moved i.now w (machine r.old m.now)) }
{
    let v = load(w, &i.second, i.imm, r, m)?;
    Ok(into_first(i, w, v, r))
}

/// XCHG
#[tactic(auto, unfolding(crate::specs::Moves::exchanged))]
pub fn exchanged(i: &Instr, w: Width, r: &mut Regs, m: &Memory) -> Result<Write, Stop>
    ensures { Leaves result r.new (exchanged i.now w (machine r.old m.now)) }
{
    let a = load(w, &i.first, i.imm, r, m)?;
    let b = load(w, &i.second, i.imm, r, m)?;
    let first = address_in(&i.first, r);
    let second = address_in(&i.second, r);
    let write = put(w, &i.second, second, a, r, Write::Absent);
    Ok(put(w, &i.first, first, b, r, write))
}

/// XADD
#[tactic(auto, unfolding(crate::specs::Moves::exchanged_added))]
pub fn exchanged_added(i: &Instr, w: Width, r: &mut Regs, m: &Memory) -> Result<Write, Stop>
    ensures { Leaves result r.new (exchanged_added i.now w (machine r.old m.now)) }
{
    let a = load(w, &i.first, i.imm, r, m)?;
    let b = load(w, &i.second, i.imm, r, m)?;
    let sum = binary(BinaryOp::Add, w, a, b, r.flags);
    let first = address_in(&i.first, r);
    let write = store(w, &i.second, a, sum.flags, r);
    Ok(put(w, &i.first, first, sum.value, r, write))
}

/// CMPXCHG, of these two numbers.
fn exchanged_if(i: &Instr, w: Width, a: u32, b: u32, r: &mut Regs) -> Write
    requires a_in { a < size w }
    requires b_in { b < size w }
    ensures value { left r.new result ≡ exchanged_if i.now w r.old a b }
    ensures write { IsWrite result }
{
    let accumulator = part(w, ACCUMULATOR, r);
    let flags = binary(BinaryOp::Sub, w, accumulator, a, r.flags).flags;
    if accumulator == a {
        return store(w, &i.first, b, flags, r);
    }
    let write = store(w, &i.first, a, flags, r);
    set_part(w, ACCUMULATOR, a, r);
    write
}

/// CMPXCHG: the first operand is always written.
#[tactic(auto, unfolding(crate::specs::Moves::compared_exchanged))]
pub fn compared_exchanged(i: &Instr, w: Width, r: &mut Regs, m: &Memory) -> Result<Write, Stop>
    ensures { Leaves result r.new (compared_exchanged i.now w (machine r.old m.now)) }
{
    let a = load(w, &i.first, i.imm, r, m)?;
    let b = load(w, &i.second, i.imm, r, m)?;
    Ok(exchanged_if(i, w, a, b, r))
}

/// LEA
#[tactic(auto, unfolding(crate::specs::Moves::loaded_address))]
#[inline]
pub fn loaded_address(i: &Instr, w: Width, r: &mut Regs) -> Result<Write, Stop>
    ensures { Leaves result r.new (loaded_address i.now w r.old) }
{
    let v = (u64::from(address_in(&i.second, r)) % w.size()) as u32;
    Ok(into_first(i, w, v, r))
}

/// MOVZX from the width `v`.
#[tactic(auto, unfolding(crate::specs::Moves::moved_zero))]
#[inline]
pub fn moved_zero(v: Width, i: &Instr, w: Width, r: &mut Regs, m: &Memory) -> Result<Write, Stop>
    ensures { Leaves result r.new (moved_zero v i.now w (machine r.old m.now)) }
{
    let a = load(v, &i.second, i.imm, r, m)?;
    Ok(into_first(i, w, (u64::from(a) % w.size()) as u32, r))
}

/// MOVSX from the width `v`.
#[tactic(auto, unfolding(crate::specs::Moves::moved_sign))]
#[inline]
pub fn moved_sign(v: Width, i: &Instr, w: Width, r: &mut Regs, m: &Memory) -> Result<Write, Stop>
    ensures { Leaves result r.new (moved_sign v i.now w (machine r.old m.now)) }
{
    let a = load(v, &i.second, i.imm, r, m)?;
    let extended = u64::from(sign_extended(v, Width::Doubleword, a));
    Ok(into_first(i, w, (extended % w.size()) as u32, r))
}

fn narrower(w: Width) -> Width
    ensures value { result ≡ narrower w }
    ensures less { size result ≤ size w }
{
    match w {
        Width::Byte => Width::Byte,
        Width::Word => Width::Byte,
        Width::Doubleword => Width::Word,
    }
}

/// CBW, CWDE
#[tactic(auto, unfolding(crate::specs::Moves::converted))]
pub fn converted(w: Width, r: &mut Regs) -> Result<Write, Stop>
    ensures { Leaves result r.new (converted w r.old) }
{
    let v = narrower(w);
    let extended = sign_extended(v, w, part(v, ACCUMULATOR, r));
    set_part(w, ACCUMULATOR, extended, r);
    Ok(Write::Absent)
}

/// CWD, CDQ
#[tactic(auto, unfolding(crate::specs::Moves::converted_double))]
pub fn converted_double(w: Width, r: &mut Regs) -> Result<Write, Stop>
    ensures { Leaves result r.new (converted_double w r.old) }
{
    let v = if is_negative(w, part(w, ACCUMULATOR, r)) {
        (w.size() - 1) as u32
    } else {
        0
    };
    set_part(w, DATA, v, r);
    Ok(Write::Absent)
}

/// CMOVcc
#[tactic(auto, unfolding(crate::specs::Moves::moved_if))]
#[inline]
pub fn moved_if(c: bool, i: &Instr, w: Width, r: &mut Regs, m: &Memory) -> Result<Write, Stop>
    ensures { Leaves result r.new (moved_if c i.now w (machine r.old m.now)) }
{
    let a = load(w, &i.second, i.imm, r, m)?;
    if c {
        Ok(into_first(i, w, a, r))
    } else {
        Ok(Write::Absent)
    }
}

/// SETcc
#[tactic(auto, unfolding(crate::specs::Moves::set_if))]
pub fn set_if(c: bool, i: &Instr, r: &mut Regs) -> Result<Write, Stop>
    ensures { Leaves result r.new (set_if c i.now r.old) }
{
    let v = if c { 1 } else { 0 };
    Ok(into_first(i, Width::Byte, v, r))
}

/// BSWAP
#[tactic(auto, unfolding(crate::specs::Moves::swapped_bytes))]
pub fn swapped_bytes(i: &Instr, r: &mut Regs, m: &Memory) -> Result<Write, Stop>
    ensures { Leaves result r.new (swapped_bytes i.now (machine r.old m.now)) }
{
    let a = load(Width::Doubleword, &i.first, i.imm, r, m)?;
    Ok(into_first(i, Width::Doubleword, swap_bytes(a), r))
}
