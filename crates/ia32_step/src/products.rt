//! Products and quotients: a pair of registers holds a number of twice the width.

ghost use Rattle.std.specs.Prelude.{◌≡◌, ◌<◌, IfSome};
ghost use Rattle.ia32_arithmetic.specs.Widths.{size};
ghost use Rattle.ia32_step.specs.State.{machine, left};
ghost use Rattle.ia32_step.specs.Operands.{IsWrite, Leaves};
ghost use Rattle.ia32_step.specs.Products.{upper, with_pair, into_pair, into_first, quotient_in, multiplied, multiplied_signed, multiplied_two, multiplied_three, divided, divided_signed};

use crate::effects::{Stop, Write, store};
use crate::operands::load;
use crate::registers::{Regs, part, set_part};
use ia32_arithmetic::{Product, Quotient, Width, divide, divide_signed, multiply, multiply_signed};
use ia32_decode::Instr;
use nd_mem::Memory;

/// The number of AL, AX, EAX.
const LOWER: u8 = 0;

/// AH, DX, EDX
fn upper(w: Width) -> u8
    ensures { result ≡ upper w }
{
    match w {
        Width::Byte => 4,
        Width::Word => 2,
        Width::Doubleword => 2,
    }
}

/// A number of twice the width into AX, DX:AX, EDX:EAX.
#[tactic(auto, unfolding(crate::specs::Products::with_pair))]
fn set_pair(w: Width, high: u32, low: u32, r: &mut Regs)
    requires high { high < size w }
    requires low { low < size w }
    ensures { r.new ≡ with_pair w high low r.old }
{
    set_part(w, LOWER, low, r);
    set_part(w, upper(w), high, r);
}

fn into_pair(w: Width, p: Product, r: &mut Regs) -> Write
    requires high { p.high < size w }
    requires low { p.low < size w }
    ensures value { left r.new result ≡ into_pair w p r.old }
    ensures write { IsWrite result }
{
    set_pair(w, p.high, p.low, r);
    r.flags = p.flags;
    Write::Absent
}

/// MUL
#[tactic(auto, unfolding(crate::specs::Products::multiplied))]
pub fn multiplied(i: &Instr, w: Width, r: &mut Regs, m: &Memory) -> Result<Write, Stop>
    ensures { Leaves result r.new (multiplied i.now w (machine r.old m.now)) }
{
    let b = load(w, &i.first, i.imm, r, m)?;
    Ok(into_pair(w, multiply(w, part(w, LOWER, r), b, r.flags), r))
}

/// IMUL of one operand.
#[tactic(auto, unfolding(crate::specs::Products::multiplied_signed))]
pub fn multiplied_signed(i: &Instr, w: Width, r: &mut Regs, m: &Memory) -> Result<Write, Stop>
    ensures { Leaves result r.new (multiplied_signed i.now w (machine r.old m.now)) }
{
    let b = load(w, &i.first, i.imm, r, m)?;
    Ok(into_pair(w, multiply_signed(w, part(w, LOWER, r), b, r.flags), r))
}

/// The lower half into the first operand.
fn into_first(i: &Instr, w: Width, p: Product, r: &mut Regs) -> Write
    requires { p.low < size w }
    ensures value { left r.new result ≡ into_first i.now w p r.old }
    ensures write { IsWrite result }
{
    store(w, &i.first, p.low, p.flags, r)
}

/// IMUL of two operands.
#[tactic(auto, unfolding(crate::specs::Products::multiplied_two))]
pub fn multiplied_two(i: &Instr, w: Width, r: &mut Regs, m: &Memory) -> Result<Write, Stop>
    ensures { Leaves result r.new (multiplied_two i.now w (machine r.old m.now)) }
{
    let a = load(w, &i.first, i.imm, r, m)?;
    let b = load(w, &i.second, i.imm, r, m)?;
    Ok(into_first(i, w, multiply_signed(w, a, b, r.flags), r))
}

/// IMUL of an operand and the immediate.
#[tactic(auto, unfolding(crate::specs::Products::multiplied_three))]
pub fn multiplied_three(i: &Instr, w: Width, r: &mut Regs, m: &Memory) -> Result<Write, Stop>
    ensures { Leaves result r.new (multiplied_three i.now w (machine r.old m.now)) }
{
    let a = load(w, &i.second, i.imm, r, m)?;
    let b = (u64::from(i.imm) % w.size()) as u32;
    Ok(into_first(i, w, multiply_signed(w, a, b, r.flags), r))
}

/// The quotient below and the remainder above, or a divide error.
fn quotient_in(w: Width, q: Option<Quotient>, r: &mut Regs) -> Result<Write, Stop>
    requires { IfSome q (λ q. (q.quotient < size w) × (q.remainder < size w)) }
    ensures { Leaves result r.new (quotient_in w q r.old) }
{
    match q {
        Some(q) => {
            set_pair(w, q.remainder, q.quotient, r);
            Ok(Write::Absent)
        }
        None => Err(Stop::DivideError),
    }
}

/// DIV
#[tactic(auto, unfolding(crate::specs::Products::divided))]
pub fn divided(i: &Instr, w: Width, r: &mut Regs, m: &Memory) -> Result<Write, Stop>
    ensures { Leaves result r.new (divided i.now w (machine r.old m.now)) }
{
    let b = load(w, &i.first, i.imm, r, m)?;
    let high = part(w, upper(w), r);
    quotient_in(w, divide(w, high, part(w, LOWER, r), b), r)
}

/// IDIV
#[tactic(auto, unfolding(crate::specs::Products::divided_signed))]
pub fn divided_signed(i: &Instr, w: Width, r: &mut Regs, m: &Memory) -> Result<Write, Stop>
    ensures { Leaves result r.new (divided_signed i.now w (machine r.old m.now)) }
{
    let b = load(w, &i.first, i.imm, r, m)?;
    let high = part(w, upper(w), r);
    quotient_in(w, divide_signed(w, high, part(w, LOWER, r), b), r)
}
