//! Pushes and pops.

ghost use Rattle.std.specs.Prelude.{◌≡◌, ◌<◌};
ghost use Rattle.ia32_arithmetic.specs.Widths.{size};
ghost use Rattle.ia32_step.specs.State.{machine, left};
ghost use Rattle.ia32_step.specs.Operands.{IsWrite, Leaves};
ghost use Rattle.ia32_step.specs.Stack.{push, pushed, popped, all_pushed, all_popped, flags_pushed, flags_popped, flags_loaded, flags_stored};

use crate::effects::{Stop, Write, store};
use crate::operands::{load, read};
use crate::registers::{ESP, Regs, part, set_part};
use ia32_arithmetic::{Flags, Width};
use ia32_decode::Instr;
use nd_mem::Memory;

/// The number of AH as a byte.
const AH: u8 = 4;

/// A number goes onto the stack.
#[tactic(auto, unfolding(crate::specs::Stack::push))]
#[inline(always)]
pub fn push(w: Width, v: u32, r: &mut Regs) -> Write
    requires { v < size w }
    ensures value { left r.new result ≡ push w v r.old }
    ensures write { IsWrite result }
{
    let top = r.general[ESP].wrapping_sub(w.bytes());
    r.general[ESP] = top;
    Write::Number(w, top, v)
}

/// PUSH
#[tactic(auto, unfolding(crate::specs::Stack::pushed))]
#[inline]
pub fn pushed(i: &Instr, w: Width, r: &mut Regs, m: &Memory) -> Result<Write, Stop>
    ensures { Leaves result r.new (pushed i.now w (machine r.old m.now)) }
{
    let v = load(w, &i.first, i.imm, r, m)?;
    Ok(push(w, v, r))
}

/// POP
#[tactic(auto, unfolding(crate::specs::Stack::popped))]
#[inline]
pub fn popped(i: &Instr, w: Width, r: &mut Regs, m: &Memory) -> Result<Write, Stop>
    ensures { Leaves result r.new (popped i.now w (machine r.old m.now)) }
{
    let top = r.general[ESP];
    let v = read(w, top, m)?;
    r.general[ESP] = top.wrapping_add(w.bytes());
    Ok(store(w, &i.first, v, r.flags, r))
}

/// PUSHAD
#[tactic(auto, unfolding(crate::specs::Stack::all_pushed))]
pub fn all_pushed(r: &mut Regs) -> Result<Write, Stop>
    ensures { Leaves result r.new (all_pushed r.old) }
{
    let top = r.general[ESP].wrapping_sub(32);
    r.general[ESP] = top;
    Ok(Write::Registers(top))
}

/// POPAD
#[tactic(auto, unfolding(crate::specs::Stack::all_popped))]
pub fn all_popped(r: &mut Regs, m: &Memory) -> Result<Write, Stop>
    ensures { Leaves result r.new (all_popped (machine r.old m.now)) }
{
    let top = r.general[ESP];
    let edi = read(Width::Doubleword, top.wrapping_add(0), m)?;
    let esi = read(Width::Doubleword, top.wrapping_add(4), m)?;
    let ebp = read(Width::Doubleword, top.wrapping_add(8), m)?;
    let _esp = read(Width::Doubleword, top.wrapping_add(12), m)?;
    let ebx = read(Width::Doubleword, top.wrapping_add(16), m)?;
    let edx = read(Width::Doubleword, top.wrapping_add(20), m)?;
    let ecx = read(Width::Doubleword, top.wrapping_add(24), m)?;
    let eax = read(Width::Doubleword, top.wrapping_add(28), m)?;
    r.general = [eax, ecx, edx, ebx, top.wrapping_add(32), ebp, esi, edi];
    Ok(Write::Absent)
}

/// PUSHFD
#[tactic(auto, unfolding(crate::specs::Stack::flags_pushed))]
pub fn flags_pushed(r: &mut Regs) -> Result<Write, Stop>
    ensures { Leaves result r.new (flags_pushed r.old) }
{
    Ok(push(Width::Doubleword, r.flags.to_word(), r))
}

/// POPFD
#[tactic(auto, unfolding(crate::specs::Stack::flags_popped))]
pub fn flags_popped(r: &mut Regs, m: &Memory) -> Result<Write, Stop>
    ensures { Leaves result r.new (flags_popped (machine r.old m.now)) }
{
    let top = r.general[ESP];
    let word = read(Width::Doubleword, top, m)?;
    r.general[ESP] = top.wrapping_add(4);
    r.flags = Flags::of_word(word);
    Ok(Write::Absent)
}

/// LAHF
#[tactic(auto, unfolding(crate::specs::Stack::flags_loaded))]
pub fn flags_loaded(r: &mut Regs) -> Result<Write, Stop>
    ensures { Leaves result r.new (flags_loaded r.old) }
{
    let low = r.flags.to_word() % 0x100;
    set_part(Width::Byte, AH, low, r);
    Ok(Write::Absent)
}

/// SAHF
#[tactic(auto, unfolding(crate::specs::Stack::flags_stored))]
pub fn flags_stored(r: &mut Regs) -> Result<Write, Stop>
    ensures { Leaves result r.new (flags_stored r.old) }
{
    r.flags = Flags {
        direction: r.flags.direction,
        overflow: r.flags.overflow,
        ..Flags::of_word(part(Width::Byte, AH, r))
    };
    Ok(Write::Absent)
}
