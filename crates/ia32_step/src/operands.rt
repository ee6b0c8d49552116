//! Operands in registers and memory.

ghost use Rattle.std.specs.Prelude.{◌≡◌, ◌<◌, IfOk};
ghost use Rattle.ia32_arithmetic.specs.Widths.{size};
ghost use Rattle.ia32_step.specs.State.{machine};
ghost use Rattle.ia32_step.specs.Operands.{address_of, register_or_none, read, load};

use crate::effects::Stop;
use crate::registers::{Regs, part};
use ia32_arithmetic::Width;
use ia32_decode::Operand;
use nd_base::Addr;
use nd_mem::Memory;

#[inline(always)]
fn register_or_none(n: Option<u8>, r: &Regs) -> u32
    ensures { result ≡ register_or_none n r.now }
{
    match n {
        Some(n) => r.general[(n % 8) as usize],
        None => 0,
    }
}

/// The effective address: base, index times scale, and offset.
#[tactic(auto, unfolding(crate::specs::Operands::address_of))]
#[inline(always)]
pub fn address_of(base: Option<u8>, index: Option<u8>, scale: u8, offset: u32, r: &Regs) -> u32
    ensures { result ≡ address_of base index scale offset r.now }
{
    let base = u64::from(register_or_none(base, r));
    let index = u64::from(register_or_none(index, r));
    ((base + index * u64::from(scale) + u64::from(offset)) % 0x1_0000_0000) as u32
}

/// The number in memory.
#[tactic(auto, unfolding(crate::specs::Operands::read))]
#[inline(always)]
pub fn read(w: Width, at: u32, m: &Memory) -> Result<u32, Stop>
    ensures value { result ≡ read w at m.now }
    ensures fits { IfOk result (λ n. n < size w) }
{
    match w {
        Width::Byte => {
            let mut bytes = [0; 1];
            match m.read(Addr(at), &mut bytes) {
                Ok(()) => Ok(u32::from(u8::from_le_bytes(bytes))),
                Err(fault) => Err(Stop::Memory(fault)),
            }
        }
        Width::Word => {
            let mut bytes = [0; 2];
            match m.read(Addr(at), &mut bytes) {
                Ok(()) => Ok(u32::from(u16::from_le_bytes(bytes))),
                Err(fault) => Err(Stop::Memory(fault)),
            }
        }
        Width::Doubleword => {
            let mut bytes = [0; 4];
            match m.read(Addr(at), &mut bytes) {
                Ok(()) => Ok(u32::from_le_bytes(bytes)),
                Err(fault) => Err(Stop::Memory(fault)),
            }
        }
    }
}

/// An operand's number, where `imm` is the instruction's immediate.
#[tactic(auto, unfolding(crate::specs::Operands::load))]
#[inline(always)]
pub fn load(w: Width, o: &Operand, imm: u32, r: &Regs, m: &Memory) -> Result<u32, Stop>
    ensures value { result ≡ load w o.now imm (machine r.now m.now) }
    ensures fits { IfOk result (λ n. n < size w) }
{
    match *o {
        Operand::Reg(n) => Ok(part(w, n, r)),
        Operand::Place {
            base,
            index,
            scale,
            offset,
        } => read(w, address_of(base, index, scale, offset, r), m),
        Operand::Imm => Ok((u64::from(imm) % w.size()) as u32),
        Operand::Absent => Ok(0),
    }
}
