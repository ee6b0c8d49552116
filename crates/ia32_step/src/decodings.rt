//! Instructions that are kept as they were decoded, by their addresses, until memory changes there.

ghost use Rattle.std.specs.Prelude.{◌≡◌, None, true, false};
ghost use Rattle.std.specs.FinMap as map;
ghost use Rattle.nd_mem.specs.Space.{Space};
ghost use Rattle.guest_map.specs.Slots.{slot_at};
ghost use Rattle.ia32_step.specs.Machine.{IsReadAt};
ghost use Rattle.ia32_step.specs.Decodings.{Keeps, IsHeld, Misses, holds};

use crate::effects::Write;
use ia32_decode::{Instr, Op, Operand, Repeat};
use nd_mem::Memory;

/// An instruction, how many bytes spell it, and where they stand.
#[derive(Clone, Copy, Debug, PartialEq, Eq)]
pub(crate) struct Decoding {
    pub(crate) at: u32,
    /// 0 where nothing is kept.
    pub(crate) length: u8,
    pub(crate) instruction: Instr,
}

/// Zeros, at a place where nothing is kept.
const NOTHING: Decoding = Decoding {
    at: 0,
    length: 0,
    instruction: Instr {
        op: Op::Adc,
        width: 0,
        first: Operand::Absent,
        second: Operand::Absent,
        imm: 0,
        repeat: Repeat::Absent,
        lock: false,
    },
};

/// Instructions that are kept, each at the place that the low bits of its address name. A write
/// from `low` up to `past` may change what they were decoded from, and no other can.
#[derive(Drop)]
pub struct Decodings {
    pub(crate) kept: [Decoding; 32],
    pub(crate) low: u32,
    pub(crate) past: u32,
}

impl Decodings {
    /// Nothing is kept.
    #[inline]
    pub fn new() -> Self
        ensures { (s : Space) → Keeps result s }
    {
        Decodings {
            kept: [NOTHING; 32],
            low: u32::MAX,
            past: 0,
        }
    }

    /// Whether an instruction is kept of this address.
    #[inline(always)]
    pub(crate) fn holds(&self, at: u32) -> bool
        ensures { result ≡ holds self.now at }
    {
        let kept = &self.kept[(at % 32) as usize];
        kept.at == at && kept.length != 0
    }

    /// Whether a write may change what is kept.
    #[inline(always)]
    pub(crate) fn is_met(&self, write: Write) -> bool
        ensures { result ≡ false → Misses write self.now.low self.now.past }
    {
        match write {
            Write::Absent => false,
            Write::Number(_, at, _) | Write::Registers(at) => self.low <= at && at < self.past,
        }
    }

    /// Keeps the instruction at an address, and answers whether it does: it keeps none so near an
    /// end of all addresses that the bytes there, or a write that meets them, may go on at 0.
    #[inline]
    pub(crate) fn keep(&mut self, at: u32, instruction: Instr, length: u8, m: &Memory) -> bool
        requires slot { slot_at at ≡ None }
        requires read { IsReadAt (map.get m.now) at instruction length }
        requires kept { Keeps self.old m.now }
        ensures keeps { Keeps self.new m.now }
        ensures held { result ≡ true → IsHeld self.new at m.now }
    {
        let (Some(low), Some(past)) = (at.checked_sub(31), at.checked_add(15)) else {
            return false;
        };
        self.kept[(at % 32) as usize] = Decoding {
            at,
            length,
            instruction,
        };
        self.low = self.low.min(low);
        self.past = self.past.max(past);
        true
    }
}
