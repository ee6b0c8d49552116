//! The registers of an IA-32 program (Intel SDM volume 1, "Basic Program Execution Registers").

ghost use Rattle.std.specs.Prelude.{◌≡◌, ◌<◌};
ghost use Rattle.ia32_arithmetic.specs.Widths.{size};
ghost use Rattle.ia32_step.specs.Registers.{at_reset, part, with_part};

use ia32_arithmetic::{Flags, Width};

pub(crate) const ECX: usize = 1;

pub(crate) const ESP: usize = 4;

pub(crate) const EBP: usize = 5;

pub(crate) const ESI: usize = 6;

pub(crate) const EDI: usize = 7;

/// The general registers, EIP and the flags.
#[derive(Clone, Copy, Debug, PartialEq, Eq)]
pub struct Regs {
    /// EAX, ECX, EDX, EBX, ESP, EBP, ESI, EDI.
    pub general: [u32; 8],
    /// The address of the next instruction.
    pub eip: u32,
    pub flags: Flags,
}

impl Regs {
    /// Each register is 0, and each flag clear.
    pub fn new() -> Self
        ensures { result ≡ at_reset }
    {
        Regs {
            general: [0; 8],
            eip: 0,
            flags: Flags::new(),
        }
    }
}

/// The number in the register that three bits name: AL, CL, DL, BL, AH, CH, DH, BH; AX to DI; EAX
/// to EDI.
#[tactic(auto, unfolding(crate::specs::Registers::part))]
#[inline(always)]
pub(crate) fn part(w: Width, n: u8, r: &Regs) -> u32
    ensures value { result ≡ part w n r.now }
    ensures fits { result < size w }
{
    match w {
        Width::Byte if n % 8 < 4 => r.general[(n % 4) as usize] % 0x100,
        Width::Byte => r.general[(n % 4) as usize] / 0x100 % 0x100,
        Width::Word => r.general[(n % 8) as usize] % 0x1_0000,
        Width::Doubleword => r.general[(n % 8) as usize],
    }
}

/// One of the registers, or a part of it, becomes the number.
#[tactic(auto, unfolding(crate::specs::Registers::with_part))]
#[inline(always)]
pub(crate) fn set_part(w: Width, n: u8, v: u32, r: &mut Regs)
    requires { v < size w }
    ensures { r.new ≡ with_part w n v r.old }
{
    match w {
        Width::Byte if n % 8 < 4 => {
            let old = r.general[(n % 4) as usize];
            r.general[(n % 4) as usize] = old / 0x100 * 0x100 + v;
        }
        Width::Byte => {
            let old = r.general[(n % 4) as usize];
            r.general[(n % 4) as usize] = old / 0x1_0000 * 0x1_0000 + v * 0x100 + old % 0x100;
        }
        Width::Word => {
            let old = r.general[(n % 8) as usize];
            r.general[(n % 8) as usize] = old / 0x1_0000 * 0x1_0000 + v;
        }
        Width::Doubleword => r.general[(n % 8) as usize] = v,
    }
}
