//! What an instruction leaves: it changes the registers in place, and makes at most one write, which
//! `commit` makes.

ghost use Rattle.std.specs.Prelude.{◌≡◌, ◌<◌};
ghost use Rattle.ia32_arithmetic.specs.Widths.{size};
ghost use Rattle.ia32_step.specs.State.{left};
ghost use Rattle.ia32_step.specs.Operands.{IsWrite, address_in, settled, stored_at, stored, bytes_of_all, written, answer_to, after};

use crate::operands::address_of;
use crate::registers::{Regs, set_part};
use ia32_arithmetic::{Flags, Width};
use ia32_decode::Operand;
use nd_base::Addr;
use nd_mem::{MemFault, Memory};

/// Why an instruction has no result.
#[derive(Clone, Copy, Debug, PartialEq, Eq)]
pub enum Stop {
    DivideError,
    Memory(MemFault),
}

/// The one write that an instruction makes.
#[derive(Clone, Copy, Debug, PartialEq, Eq)]
pub enum Write {
    Absent,
    /// A number of the width, at the address.
    Number(Width, u32, u32),
    /// The general registers as they were before the instruction, EDI at the address and EAX last.
    Registers(u32),
}

/// The address in an operand.
#[tactic(auto, unfolding(crate::specs::Operands::address_in))]
#[inline(always)]
pub fn address_in(o: &Operand, r: &Regs) -> u32
    ensures { result ≡ address_in o.now r.now }
{
    match *o {
        Operand::Place {
            base,
            index,
            scale,
            offset,
        } => address_of(base, index, scale, offset, r),
        Operand::Absent | Operand::Reg(_) | Operand::Imm => 0,
    }
}

/// A number into an operand, at this address if it is in memory, where so far this write is left.
#[tactic(auto, unfolding(crate::specs::Operands::stored_at))]
#[inline(always)]
pub fn put(w: Width, o: &Operand, at: u32, v: u32, r: &mut Regs, write: Write) -> Write
    requires fits { v < size w }
    requires write { IsWrite write }
    ensures value { left r.new result ≡ stored_at w o.now at v (left r.old write) }
    ensures write { IsWrite result }
{
    match *o {
        Operand::Reg(n) => {
            set_part(w, n, v, r);
            write
        }
        Operand::Place { .. } => Write::Number(w, at, v),
        Operand::Imm | Operand::Absent => write,
    }
}

/// A number into an operand, and the flags.
#[inline(always)]
pub fn store(w: Width, o: &Operand, v: u32, flags: Flags, r: &mut Regs) -> Write
    requires { v < size w }
    ensures value { left r.new result ≡ stored w o.now v r.old (settled r.old flags) }
    ensures write { IsWrite result }
{
    let at = address_in(o, r);
    r.flags = flags;
    put(w, o, at, v, r, Write::Absent)
}

/// The general registers, the lowest byte of each first, EDI before all others.
#[tactic(auto, unfolding(crate::specs::Operands::bytes_of_all))]
fn bytes_of_all(r: &Regs) -> [u8; 32]
    ensures { result ≡ bytes_of_all r.now }
{
    let a = r.general[7].to_le_bytes();
    let b = r.general[6].to_le_bytes();
    let c = r.general[5].to_le_bytes();
    let d = r.general[4].to_le_bytes();
    let e = r.general[3].to_le_bytes();
    let f = r.general[2].to_le_bytes();
    let g = r.general[1].to_le_bytes();
    let h = r.general[0].to_le_bytes();
    [
        a[0], a[1], a[2], a[3], b[0], b[1], b[2], b[3], c[0], c[1], c[2], c[3], d[0], d[1], d[2],
        d[3], e[0], e[1], e[2], e[3], f[0], f[1], f[2], f[3], g[0], g[1], g[2], g[3], h[0], h[1],
        h[2], h[3],
    ]
}

/// Makes the write of an instruction before which the registers were these. A fault changes nothing.
#[inline(always)]
pub fn commit(write: Write, before: &Regs, m: &mut Memory) -> Result<(), Stop>
    requires { IsWrite write }
    ensures answer { result ≡ answer_to (written write before.now m.old) }
    ensures state { m.new ≡ after (written write before.now m.old) m.old }
{
    let done = match write {
        Write::Absent => Ok(()),
        Write::Number(Width::Byte, at, v) => m.write(Addr(at), &(v as u8).to_le_bytes()),
        Write::Number(Width::Word, at, v) => m.write(Addr(at), &(v as u16).to_le_bytes()),
        Write::Number(Width::Doubleword, at, v) => m.write(Addr(at), &v.to_le_bytes()),
        Write::Registers(at) => m.write(Addr(at), &bytes_of_all(before)),
    };
    match done {
        Ok(()) => Ok(()),
        Err(fault) => Err(Stop::Memory(fault)),
    }
}
