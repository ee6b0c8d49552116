//! Bits of operands.

ghost use Rattle.std.specs.Prelude.{◌≡◌, ◌<◌};
ghost use Rattle.ia32_arithmetic.specs.Widths.{size};
ghost use Rattle.ia32_step.specs.State.{machine};
ghost use Rattle.ia32_step.specs.Operands.{Leaves};
ghost use Rattle.ia32_step.specs.BitStrings.{displacement, place_of_bit, bit_done, scanned_forward, scanned_back};

use crate::effects::{Stop, Write, store};
use crate::operands::load;
use crate::registers::Regs;
use ia32_arithmetic::{
    BitOp, Flags, Width, change_bit, has_bit, highest_bit, lowest_bit, sign_extended,
};
use ia32_decode::{Instr, Operand};
use nd_mem::Memory;

/// How far the number with the bit is from the operand's address, in bytes.
#[tactic(auto, unfolding(crate::specs::BitStrings::displacement))]
fn displacement(w: Width, offset: u32) -> u32
    requires { offset < size w }
    ensures { result ≡ displacement w offset }
{
    let extended = u64::from(sign_extended(w, Width::Doubleword, offset));
    let above = (extended + 0x8000_0000) % 0x1_0000_0000;
    let places = above / u64::from(w.bits()) * u64::from(w.bytes());
    ((places + 0xF000_0000) % 0x1_0000_0000) as u32
}

/// The operand with the bit.
#[tactic(auto, unfolding(crate::specs::BitStrings::place_of_bit))]
fn place_of_bit(i: &Instr, w: Width, offset: u32) -> Operand
    requires { offset < size w }
    ensures { result ≡ place_of_bit i.now w offset }
{
    let distance = displacement(w, offset);
    match (i.first, i.second) {
        (
            Operand::Place {
                base,
                index,
                scale,
                offset,
            },
            Operand::Reg(_),
        ) => Operand::Place {
            base,
            index,
            scale,
            offset: offset.wrapping_add(distance),
        },
        _ => i.first,
    }
}

/// BT, and with an operation BTS, BTR, BTC.
#[tactic(auto, unfolding(crate::specs::BitStrings::bit_done))]
pub fn bit_done(
    op: Option<BitOp>,
    i: &Instr,
    w: Width,
    r: &mut Regs,
    m: &Memory,
) -> Result<Write, Stop>
    ensures { Leaves result r.new (bit_done op i.now w (machine r.old m.now)) }
{
    let offset = load(w, &i.second, i.imm, r, m)?;
    let place = place_of_bit(i, w, offset);
    let n = (offset % u32::from(w.bits())) as u8;
    let a = load(w, &place, i.imm, r, m)?;
    let flags = Flags {
        carry: has_bit(a, n),
        ..r.flags
    };
    match op {
        None => {
            r.flags = flags;
            Ok(Write::Absent)
        }
        Some(op) => Ok(store(w, &place, change_bit(op, w, a, n), flags, r)),
    }
}

/// BSF
#[tactic(auto, using(crate::proofs::Sets::sizes), unfolding(crate::specs::BitStrings::scanned_forward))]
pub fn scanned_forward(i: &Instr, w: Width, r: &mut Regs, m: &Memory) -> Result<Write, Stop>
    ensures { Leaves result r.new (scanned_forward i.now w (machine r.old m.now)) }
{
    let a = load(w, &i.second, i.imm, r, m)?;
    let flags = Flags {
        zero: a == 0,
        ..r.flags
    };
    if a == 0 {
        r.flags = flags;
        return Ok(Write::Absent);
    }
    Ok(store(w, &i.first, lowest_bit(a), flags, r))
}

/// BSR
#[tactic(auto, using(crate::proofs::Sets::sizes), unfolding(crate::specs::BitStrings::scanned_back))]
pub fn scanned_back(i: &Instr, w: Width, r: &mut Regs, m: &Memory) -> Result<Write, Stop>
    ensures { Leaves result r.new (scanned_back i.now w (machine r.old m.now)) }
{
    let a = load(w, &i.second, i.imm, r, m)?;
    let flags = Flags {
        zero: a == 0,
        ..r.flags
    };
    if a == 0 {
        r.flags = flags;
        return Ok(Write::Absent);
    }
    Ok(store(w, &i.first, highest_bit(a), flags, r))
}
