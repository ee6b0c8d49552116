//! Sums, differences and bitwise operations.

ghost use Rattle.std.specs.Prelude.{◌≡◌, ◌≤◌, ◌<◌, ◌+◌, ◌^◌, bit_and};
ghost use Rattle.ia32_arithmetic.specs.Widths.{size};
ghost use Rattle.ia32_arithmetic.specs.Sums.{one_if, sum_overflows, difference_overflows, sum, difference, logic, increased, decreased, inverted, binary, unary};

use crate::flags::{Computed, Flags, with_result};
use crate::widths::{Width, fits_signed, signed};

/// An operation on two numbers. CMP is SUB, and TEST is AND, whose result is not kept.
#[derive(Clone, Copy, Debug, PartialEq, Eq)]
pub enum BinaryOp {
    Add,
    Adc,
    And,
    Or,
    Sbb,
    Sub,
    Xor,
}

/// An operation on one number.
#[derive(Clone, Copy, Debug, PartialEq, Eq)]
pub enum UnaryOp {
    Dec,
    Inc,
    Neg,
    Not,
}

/// 1 for a flag that is set.
#[inline(always)]
fn one_if(flag: bool) -> u32
    ensures value { result ≡ one_if flag }
    ensures low { result ≤ 1 }
{
    if flag { 1 } else { 0 }
}

/// OF of a sum.
#[tactic(auto, using(crate::proofs::Sets::signed_values), unfolding(crate::specs::Sums::sum_overflows))]
#[inline(always)]
fn sum_overflows(w: Width, a: u32, b: u32, one: u32) -> bool
    ensures { result ≡ sum_overflows w a b one }
{
    !fits_signed(w, signed(w, a) + signed(w, b) + i64::from(one))
}

/// OF of a difference.
#[tactic(auto, using(crate::proofs::Sets::signed_values), unfolding(crate::specs::Sums::difference_overflows))]
#[inline(always)]
fn difference_overflows(w: Width, a: u32, b: u32, one: u32) -> bool
    ensures { result ≡ difference_overflows w a b one }
{
    !fits_signed(w, signed(w, a) - signed(w, b) - i64::from(one))
}

/// ADD, and with CF ADC.
#[tactic(auto, unfolding(crate::specs::Sums::sum))]
#[inline]
fn sum(w: Width, a: u32, b: u32, carry: bool, flags: Flags) -> Computed
    ensures value { result ≡ sum w a b carry flags }
    ensures fits { result.value < size w }
{
    let size = w.size();
    let one = one_if(carry);
    let total = u64::from(a) + u64::from(b) + u64::from(one);
    let value = (total % size) as u32;
    Computed {
        value,
        flags: Flags {
            carry: total >= size,
            auxiliary: a % 16 + b % 16 + one >= 16,
            overflow: sum_overflows(w, a, b, one),
            ..with_result(w, value, flags)
        },
    }
}

/// SUB, with CF SBB, and of 0 NEG.
#[tactic(auto, unfolding(crate::specs::Sums::difference))]
#[inline]
fn difference(w: Width, a: u32, b: u32, borrow: bool, flags: Flags) -> Computed
    requires { b < size w }
    ensures value { result ≡ difference w a b borrow flags }
    ensures fits { result.value < size w }
{
    let size = w.size();
    let one = one_if(borrow);
    let taken = u64::from(b) + u64::from(one);
    let value = ((u64::from(a) + size - taken) % size) as u32;
    Computed {
        value,
        flags: Flags {
            carry: u64::from(a) < taken,
            auxiliary: a % 16 < b % 16 + one,
            overflow: difference_overflows(w, a, b, one),
            ..with_result(w, value, flags)
        },
    }
}

/// The flags of a bitwise operation.
#[tactic(auto, unfolding(crate::specs::Sums::logic))]
#[inline]
fn logic(w: Width, value: u32, flags: Flags) -> Computed
    ensures value { result ≡ logic w value flags }
    ensures same { result.value ≡ value }
{
    Computed {
        value,
        flags: Flags {
            carry: false,
            overflow: false,
            ..with_result(w, value, flags)
        },
    }
}

/// INC.
#[tactic(auto, unfolding(crate::specs::Sums::increased))]
#[inline]
fn increased(w: Width, a: u32, flags: Flags) -> Computed
    ensures value { result ≡ increased w a flags }
    ensures fits { result.value < size w }
{
    let computed = sum(w, a, 1, false, flags);
    Computed {
        flags: Flags {
            carry: flags.carry,
            ..computed.flags
        },
        ..computed
    }
}

/// DEC.
#[tactic(auto, unfolding(crate::specs::Sums::decreased))]
#[inline]
fn decreased(w: Width, a: u32, flags: Flags) -> Computed
    ensures value { result ≡ decreased w a flags }
    ensures fits { result.value < size w }
{
    let computed = difference(w, a, 1, false, flags);
    Computed {
        flags: Flags {
            carry: flags.carry,
            ..computed.flags
        },
        ..computed
    }
}

/// NOT.
#[tactic(auto, unfolding(crate::specs::Sums::inverted))]
#[inline]
fn inverted(w: Width, a: u32, flags: Flags) -> Computed
    requires { a < size w }
    ensures value { result ≡ inverted w a flags }
    ensures fits { result.value < size w }
{
    Computed {
        value: (w.size() - 1 - u64::from(a)) as u32,
        flags,
    }
}

/// What two numbers come to.
#[tactic(auto, using(crate::proofs::Sets::bit_widths), unfolding(crate::specs::Sums::binary))]
#[inline]
pub fn binary(op: BinaryOp, w: Width, a: u32, b: u32, flags: Flags) -> Computed
    requires a_in { a < size w }
    requires b_in { b < size w }
    ensures value { result ≡ binary op w a b flags }
    ensures fits { result.value < size w }
{
    match op {
        BinaryOp::Add => sum(w, a, b, false, flags),
        BinaryOp::Adc => sum(w, a, b, flags.carry, flags),
        BinaryOp::And => logic(w, a & b, flags),
        BinaryOp::Or => logic(w, a | b, flags),
        BinaryOp::Sbb => difference(w, a, b, flags.carry, flags),
        BinaryOp::Sub => difference(w, a, b, false, flags),
        BinaryOp::Xor => logic(w, a ^ b, flags),
    }
}

/// What one number comes to.
#[tactic(auto, unfolding(crate::specs::Sums::unary))]
#[inline]
pub fn unary(op: UnaryOp, w: Width, a: u32, flags: Flags) -> Computed
    requires { a < size w }
    ensures value { result ≡ unary op w a flags }
    ensures fits { result.value < size w }
{
    match op {
        UnaryOp::Dec => decreased(w, a, flags),
        UnaryOp::Inc => increased(w, a, flags),
        UnaryOp::Neg => difference(w, 0, a, false, flags),
        UnaryOp::Not => inverted(w, a, flags),
    }
}
