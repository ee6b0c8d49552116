//! Shifts and rotates.

ghost use Rattle.std.specs.Prelude.{◌≡◌, ◌≤◌, ◌<◌, ◌+◌, ◌*◌, ◌%◌, ◌^◌};
ghost use Rattle.ia32_arithmetic.specs.Widths.{size, bits};
ghost use Rattle.ia32_arithmetic.specs.Shifts.{rotated, counted, turned, shifted_left, shifted_right, shifted_signed, extended, rotated_left, rotated_carry_left, rotated_right, rotated_carry_right, joined, with_carry, shifted_left_double, shifted_right_double, shift_by, shift, double_shift};

use crate::flags::{Computed, Flags, with_result};
use crate::widths::{Width, is_negative};

/// A shift or a rotate.
#[derive(Clone, Copy, Debug, PartialEq, Eq)]
pub enum ShiftOp {
    Rcl,
    Rcr,
    Rol,
    Ror,
    Sar,
    Shl,
    Shr,
}

/// A shift with the bits of a second number.
#[derive(Clone, Copy, Debug, PartialEq, Eq)]
pub enum DoubleShiftOp {
    Shld,
    Shrd,
}

/// A power of 2.
#[tactic(auto, using(crate::proofs::Sets::powers))]
fn power(n: u8) -> u64
    requires { n < 64 }
    ensures { result ≡ 2 ^ n }
{
    1 << n
}

/// A number times a power of 2.
fn scaled(a: u32, n: u8) -> u64
    requires { n < 32 }
    ensures { result ≡ a * 2 ^ n }
{
    u64::from(a) * power(n)
}

/// Of so many bits, those of a go up by n, and the upper n of c come in.
#[tactic(auto, unfolding(crate::specs::Shifts::joined))]
fn joined(bits: u8, a: u64, c: u64, n: u8) -> u64
    requires few { bits ≤ 33 }
    requires within { n ≤ bits }
    requires fits { c < 2 ^ bits }
    ensures value { result ≡ joined bits a c n }
    ensures fits { result < 2 ^ bits }
{
    let low = power(bits - n);
    a % low * power(n) + c / low
}

/// A number of so many bits, turned to the left.
#[tactic(auto, unfolding(crate::specs::Shifts::rotated))]
fn rotated(bits: u8, a: u64, n: u8) -> u64
    requires few { bits ≤ 33 }
    requires within { n ≤ bits }
    requires fits { a < 2 ^ bits }
    ensures value { result ≡ rotated bits a n }
    ensures fits { result < 2 ^ bits }
{
    joined(bits, a, a, n)
}

/// The flags of a shift.
#[tactic(auto, unfolding(crate::specs::Shifts::counted))]
fn counted(w: Width, value: u32, n: u8, carry: bool, overflow: bool, f: Flags) -> Computed
    ensures value { result ≡ counted w value n carry overflow f }
    ensures same { result.value ≡ value }
{
    let overflow = if n == 1 { overflow } else { f.overflow };
    Computed {
        value,
        flags: Flags {
            carry,
            overflow,
            ..with_result(w, value, f)
        },
    }
}

/// The flags of a rotate.
#[tactic(auto, unfolding(crate::specs::Shifts::turned))]
fn turned(value: u32, n: u8, carry: bool, overflow: bool, f: Flags) -> Computed
    ensures value { result ≡ turned value n carry overflow f }
    ensures same { result.value ≡ value }
{
    let overflow = if n == 1 { overflow } else { f.overflow };
    Computed {
        value,
        flags: Flags {
            carry,
            overflow,
            ..f
        },
    }
}

/// SHL
#[tactic(auto, unfolding(crate::specs::Shifts::shifted_left))]
fn shifted_left(w: Width, a: u32, n: u8, f: Flags) -> Computed
    requires { n < 32 }
    ensures value { result ≡ shifted_left w a n f }
    ensures fits { result.value < size w }
{
    let size = w.size();
    let whole = scaled(a, n);
    let value = (whole % size) as u32;
    let carry = if n < w.bits() {
        whole / size % 2 == 1
    } else {
        f.carry
    };
    counted(w, value, n, carry, is_negative(w, value) != carry, f)
}

/// SHR
#[tactic(auto, unfolding(crate::specs::Shifts::shifted_right))]
fn shifted_right(w: Width, a: u32, n: u8, f: Flags) -> Computed
    requires some { 1 ≤ n }
    requires few { n < 32 }
    requires fits { a < size w }
    ensures value { result ≡ shifted_right w a n f }
    ensures fits { result.value < size w }
{
    let carry = if n < w.bits() {
        (a >> (n - 1)) % 2 == 1
    } else {
        f.carry
    };
    counted(w, a >> n, n, carry, is_negative(w, a), f)
}

/// The sign goes on to the left, up to 64 bits.
fn extended(w: Width, a: u32) -> u64
    requires { a < size w }
    ensures { result ≡ extended w a }
{
    if is_negative(w, a) {
        u64::from(a) + (u64::MAX - w.size() + 1)
    } else {
        u64::from(a)
    }
}

/// SAR
#[tactic(auto, unfolding(crate::specs::Shifts::shifted_signed))]
fn shifted_signed(w: Width, a: u32, n: u8, f: Flags) -> Computed
    requires some { 1 ≤ n }
    requires few { n < 32 }
    requires fits { a < size w }
    ensures value { result ≡ shifted_signed w a n f }
    ensures fits { result.value < size w }
{
    let whole = extended(w, a);
    let value = ((whole >> n) % w.size()) as u32;
    counted(w, value, n, (whole >> (n - 1)) % 2 == 1, false, f)
}

/// ROL
#[tactic(auto, unfolding(crate::specs::Shifts::rotated_left))]
fn rotated_left(w: Width, a: u32, n: u8, f: Flags) -> Computed
    requires { a < size w }
    ensures value { result ≡ rotated_left w a n f }
    ensures fits { result.value < size w }
{
    let bits = w.bits();
    let value = rotated(bits, u64::from(a), n % bits) as u32;
    let carry = value % 2 == 1;
    turned(value, n, carry, is_negative(w, value) != carry, f)
}

/// A number with CF as one more bit above it.
fn with_carry(w: Width, a: u32, carry: bool) -> u64
    requires { a < size w }
    ensures value { result ≡ with_carry w a carry }
    ensures fits { result < 2 ^ (bits w + 1) }
{
    if carry {
        u64::from(a) + w.size()
    } else {
        u64::from(a)
    }
}

/// RCL
#[tactic(auto, unfolding(crate::specs::Shifts::rotated_carry_left))]
fn rotated_carry_left(w: Width, a: u32, n: u8, f: Flags) -> Computed
    requires { a < size w }
    ensures value { result ≡ rotated_carry_left w a n f }
    ensures fits { result.value < size w }
{
    let size = w.size();
    let places = w.bits() + 1;
    let turn = rotated(places, with_carry(w, a, f.carry), n % places);
    let value = (turn % size) as u32;
    let carry = turn >= size;
    turned(value, n, carry, is_negative(w, value) != carry, f)
}

/// ROR
#[tactic(auto, unfolding(crate::specs::Shifts::rotated_right))]
fn rotated_right(w: Width, a: u32, n: u8, f: Flags) -> Computed
    requires { a < size w }
    ensures value { result ≡ rotated_right w a n f }
    ensures fits { result.value < size w }
{
    let bits = w.bits();
    let value = rotated(bits, u64::from(a), bits - n % bits) as u32;
    let carry = is_negative(w, value);
    let below = (value >> (bits - 2)) % 2 == 1;
    turned(value, n, carry, below != carry, f)
}

/// RCR
#[tactic(auto, unfolding(crate::specs::Shifts::rotated_carry_right))]
fn rotated_carry_right(w: Width, a: u32, n: u8, f: Flags) -> Computed
    requires { a < size w }
    ensures value { result ≡ rotated_carry_right w a n f }
    ensures fits { result.value < size w }
{
    let size = w.size();
    let places = w.bits() + 1;
    let turn = rotated(places, with_carry(w, a, f.carry), places - n % places);
    let value = (turn % size) as u32;
    turned(value, n, turn >= size, is_negative(w, a) != f.carry, f)
}

/// What a number comes to, shifted by a count that is not 0.
#[tactic(auto, unfolding(crate::specs::Shifts::shift_by))]
fn shift_by(op: ShiftOp, w: Width, a: u32, n: u8, f: Flags) -> Computed
    requires some { 1 ≤ n }
    requires few { n < 32 }
    requires fits { a < size w }
    ensures value { result ≡ shift_by op w a n f }
    ensures fits { result.value < size w }
{
    match op {
        ShiftOp::Rcl => rotated_carry_left(w, a, n, f),
        ShiftOp::Rcr => rotated_carry_right(w, a, n, f),
        ShiftOp::Rol => rotated_left(w, a, n, f),
        ShiftOp::Ror => rotated_right(w, a, n, f),
        ShiftOp::Sar => shifted_signed(w, a, n, f),
        ShiftOp::Shl => shifted_left(w, a, n, f),
        ShiftOp::Shr => shifted_right(w, a, n, f),
    }
}

/// What a number comes to, shifted by a count that is taken modulo 32.
#[tactic(auto, unfolding(crate::specs::Shifts::shift))]
pub fn shift(op: ShiftOp, w: Width, a: u32, count: u32, flags: Flags) -> Computed
    requires { a < size w }
    ensures value { result ≡ shift op w a count flags }
    ensures fits { result.value < size w }
{
    let n = (count % 32) as u8;
    if n == 0 {
        Computed { value: a, flags }
    } else {
        shift_by(op, w, a, n, flags)
    }
}

/// SHLD, by no more than the width.
#[tactic(auto, unfolding(crate::specs::Shifts::shifted_left_double))]
fn shifted_left_double(w: Width, a: u32, b: u32, n: u8, f: Flags) -> Computed
    requires few { n ≤ bits w }
    requires fits { b < size w }
    ensures value { result ≡ shifted_left_double w a b n f }
    ensures fits { result.value < size w }
{
    let bits = w.bits();
    let value = joined(bits, u64::from(a), u64::from(b), n) as u32;
    let carry = (u64::from(a) >> (bits - n)) % 2 == 1;
    let changes = is_negative(w, value) != is_negative(w, a);
    counted(w, value, n, carry, changes, f)
}

/// SHRD, by no more than the width.
#[tactic(auto, unfolding(crate::specs::Shifts::shifted_right_double))]
fn shifted_right_double(w: Width, a: u32, b: u32, n: u8, f: Flags) -> Computed
    requires some { 1 ≤ n }
    requires few { n ≤ bits w }
    requires fits { a < size w }
    ensures value { result ≡ shifted_right_double w a b n f }
    ensures fits { result.value < size w }
{
    let bits = w.bits();
    let value = joined(bits, u64::from(b), u64::from(a), bits - n) as u32;
    let carry = (u64::from(a) >> (n - 1)) % 2 == 1;
    let changes = is_negative(w, value) != is_negative(w, a);
    counted(w, value, n, carry, changes, f)
}

/// What a number comes to, shifted with the bits of another, by a count that is taken modulo 32. By
/// more than the width nothing changes.
#[tactic(auto, unfolding(crate::specs::Shifts::double_shift))]
pub fn double_shift(
    op: DoubleShiftOp,
    w: Width,
    a: u32,
    b: u32,
    count: u32,
    flags: Flags,
) -> Computed
    requires a_in { a < size w }
    requires b_in { b < size w }
    ensures value { result ≡ double_shift op w a b count flags }
    ensures fits { result.value < size w }
{
    let n = (count % 32) as u8;
    if n == 0 || n > w.bits() {
        return Computed { value: a, flags };
    }
    match op {
        DoubleShiftOp::Shld => shifted_left_double(w, a, b, n, flags),
        DoubleShiftOp::Shrd => shifted_right_double(w, a, b, n, flags),
    }
}
