//! Rows of what a processor answers.

ghost use Rattle.std.specs.Prelude.{◌<◌, ◌≤◌};
ghost use Rattle.ia32_arithmetic.specs.Widths.{size, bits};

use ia32_arithmetic::{
    BinaryOp, BitOp, Computed, DoubleShiftOp, Flags, Product, Quotient, ShiftOp, UnaryOp, Width,
    binary, change_bit, divide, divide_signed, double_shift, has_bit, highest_bit, is_negative,
    lowest_bit, multiply, multiply_signed, shift, sign_extended, swap_bytes, unary,
};

const BYTE: Width = Width::Byte;

const WORD: Width = Width::Word;

const DOUBLEWORD: Width = Width::Doubleword;

/// The value and the flags of EFLAGS.
fn computed(value: u32, flags: u32) -> Computed {
    Computed {
        value,
        flags: Flags::of_word(flags),
    }
}

fn of_two(op: BinaryOp, w: Width, a: u32, b: u32, flags: u32) -> Computed
    requires a_in { a < size w }
    requires b_in { b < size w }
{
    binary(op, w, a, b, Flags::of_word(flags))
}

#[test]
fn sums_and_differences(rt: HostRuntime) {
    assert!(rt; of_two(BinaryOp::Adc, BYTE, 0, 0xFF, 1) == computed(0, 0x055));
    assert!(rt;
        of_two(BinaryOp::Add, DOUBLEWORD, 0x7FFF_FFFF, 1, 0) == computed(0x8000_0000, 0x894)
    );
    assert!(rt; of_two(BinaryOp::Add, WORD, 0x8000, 0x8000, 0) == computed(0, 0x845));
    assert!(rt; of_two(BinaryOp::Sub, DOUBLEWORD, 0, 1, 0) == computed(0xFFFF_FFFF, 0x095));
    assert!(rt; of_two(BinaryOp::Sbb, BYTE, 0x80, 0, 1) == computed(0x7F, 0x810));
    assert!(rt; of_two(BinaryOp::Sbb, WORD, 0, 0xFFFF, 1) == computed(0, 0x055));
}

#[test]
fn bits_of_two_numbers(rt: HostRuntime) {
    assert!(rt;
        of_two(BinaryOp::And, DOUBLEWORD, 0xF0F0_F0F0, 0x8000_000F, 0x801)
            == computed(0x8000_0000, 0x084)
    );
    assert!(rt; of_two(BinaryOp::Or, BYTE, 0x81, 3, 0x801) == computed(0x83, 0x080));
    assert!(rt; of_two(BinaryOp::Xor, WORD, 0xFFFF, 0xFFFF, 0x801) == computed(0, 0x044));
}

fn of_one(op: UnaryOp, w: Width, a: u32, flags: u32) -> Computed
    requires { a < size w }
{
    unary(op, w, a, Flags::of_word(flags))
}

#[test]
fn one_number(rt: HostRuntime) {
    assert!(rt; of_one(UnaryOp::Inc, BYTE, 0x7F, 1) == computed(0x80, 0x891));
    assert!(rt; of_one(UnaryOp::Inc, DOUBLEWORD, 0xFFFF_FFFF, 0) == computed(0, 0x054));
    assert!(rt; of_one(UnaryOp::Dec, WORD, 0x8000, 1) == computed(0x7FFF, 0x815));
    assert!(rt; of_one(UnaryOp::Neg, BYTE, 0, 1) == computed(0, 0x044));
    assert!(rt; of_one(UnaryOp::Neg, DOUBLEWORD, 0x8000_0000, 0) == computed(0x8000_0000, 0x885));
    assert!(rt; of_one(UnaryOp::Not, WORD, 0xFF, 0x8D5) == computed(0xFF00, 0x8D5));
}

fn shifted(op: ShiftOp, w: Width, a: u32, count: u32, flags: u32) -> Computed
    requires { a < size w }
{
    shift(op, w, a, count, Flags::of_word(flags))
}

#[test]
fn shifts(rt: HostRuntime) {
    assert!(rt; shifted(ShiftOp::Shl, BYTE, 0x81, 1, 0) == computed(2, 0x801));
    assert!(rt; shifted(ShiftOp::Shl, WORD, 0x8001, 33, 0) == computed(2, 0x801));
    // by 32 nothing changes
    assert!(rt; shifted(ShiftOp::Shl, DOUBLEWORD, 5, 32, 0x8D5) == computed(5, 0x8D5));
    assert!(rt; shifted(ShiftOp::Shr, DOUBLEWORD, 0xFFFF_FFFF, 31, 0x800) == computed(1, 0x801));
    // at the width CF is undefined, and stays
    assert!(rt; shifted(ShiftOp::Shr, BYTE, 0xFF, 8, 1) == computed(0, 0x045));
    assert!(rt; shifted(ShiftOp::Sar, BYTE, 0x81, 20, 0x800) == computed(0xFF, 0x885));
}

#[test]
fn rotates(rt: HostRuntime) {
    assert!(rt; shifted(ShiftOp::Rol, BYTE, 0x81, 8, 0) == computed(0x81, 1));
    assert!(rt; shifted(ShiftOp::Rol, DOUBLEWORD, 0x8000_0000, 1, 0x40) == computed(1, 0x841));
    assert!(rt; shifted(ShiftOp::Ror, WORD, 1, 1, 0) == computed(0x8000, 0x801));
    assert!(rt; shifted(ShiftOp::Rcl, BYTE, 0x81, 9, 1) == computed(0x81, 1));
    assert!(rt; shifted(ShiftOp::Rcl, DOUBLEWORD, 0xFFFF_FFFF, 31, 0) == computed(0xBFFF_FFFF, 1));
    assert!(rt; shifted(ShiftOp::Rcr, BYTE, 1, 1, 1) == computed(0x80, 0x801));
}

fn double_shifted(op: DoubleShiftOp, w: Width, a: u32, b: u32, count: u32) -> Computed
    requires a_in { a < size w }
    requires b_in { b < size w }
{
    double_shift(op, w, a, b, count, Flags::new())
}

#[test]
fn double_shifts(rt: HostRuntime) {
    assert!(rt;
        double_shifted(DoubleShiftOp::Shld, DOUBLEWORD, 0x8000_0001, 0xC000_0000, 1)
            == computed(3, 0x805)
    );
    assert!(rt;
        double_shifted(DoubleShiftOp::Shrd, WORD, 0x1234, 0xABCD, 4) == computed(0xD123, 0x080)
    );
    assert!(rt;
        double_shifted(DoubleShiftOp::Shld, WORD, 0x1234, 0xABCD, 16) == computed(0xABCD, 0x080)
    );
    // by more than the width nothing changes
    assert!(rt;
        double_shifted(DoubleShiftOp::Shrd, WORD, 0x1234, 0xABCD, 17) == computed(0x1234, 0)
    );
}

fn product(high: u32, low: u32, flags: u32) -> Product {
    Product {
        high,
        low,
        flags: Flags::of_word(flags),
    }
}

#[test]
fn products(rt: HostRuntime) {
    let clear = Flags::new();
    assert!(rt; multiply(BYTE, 0x10, 0x0F, clear) == product(0, 0xF0, 0));
    assert!(rt;
        multiply(DOUBLEWORD, 0xFFFF_FFFF, 0xFFFF_FFFF, clear) == product(0xFFFF_FFFE, 1, 0x801)
    );
    assert!(rt; multiply_signed(BYTE, 0xFF, 0x80, clear) == product(0, 0x80, 0x801));
    assert!(rt; multiply_signed(DOUBLEWORD, 0xFFFF_FFFF, 0xFFFF_FFFF, clear) == product(0, 1, 0));
}

fn quotient(quotient: u32, remainder: u32) -> Option<Quotient> {
    Some(Quotient {
        quotient,
        remainder,
    })
}

#[test]
fn quotients(rt: HostRuntime) {
    assert!(rt; divide(DOUBLEWORD, 1, 0, 0x10) == quotient(0x1000_0000, 0));
    assert!(rt; divide(DOUBLEWORD, 0, 5, 0).is_none());
    assert!(rt; divide(BYTE, 2, 0, 2).is_none());
    assert!(rt;
        divide(DOUBLEWORD, 0xFFFF_FFFE, 0xFFFF_FFFF, 0xFFFF_FFFF)
            == quotient(0xFFFF_FFFF, 0xFFFF_FFFE)
    );
}

#[test]
fn signed_quotients(rt: HostRuntime) {
    // -7 by 2, -2 ^ 63 by -1, and the least quotient that still fits
    assert!(rt;
        divide_signed(DOUBLEWORD, 0xFFFF_FFFF, 0xFFFF_FFF9, 2) == quotient(0xFFFF_FFFD, 0xFFFF_FFFF)
    );
    assert!(rt; divide_signed(DOUBLEWORD, 0x8000_0000, 0, 0xFFFF_FFFF).is_none());
    assert!(rt; divide_signed(BYTE, 0xFF, 0x80, 1) == quotient(0x80, 0));
    assert!(rt; divide_signed(BYTE, 0xFF, 0x7F, 1).is_none());
    assert!(rt; divide_signed(WORD, 0, 5, 0).is_none());
}

fn changed_bit(op: BitOp, w: Width, a: u32, n: u8) -> u32
    requires a_in { a < size w }
    requires bit { n < bits w }
{
    change_bit(op, w, a, n)
}

#[test]
fn bits_and_bytes(rt: HostRuntime) {
    assert!(rt; changed_bit(BitOp::Set, DOUBLEWORD, 0, 31) == 0x8000_0000);
    assert!(rt; changed_bit(BitOp::Reset, WORD, 0xFFFF, 0) == 0xFFFE);
    assert!(rt; changed_bit(BitOp::Complement, BYTE, 0xFF, 7) == 0x7F);
    assert!(rt; has_bit(0x8000_0000, 31) && !has_bit(0x7FFF_FFFF, 31));
    assert!(rt; lowest_bit(0x8000_0000) == 31 && highest_bit(0x8000_0001) == 31);
    assert!(rt; lowest_bit(6) == 1 && highest_bit(6) == 2);
    assert!(rt; swap_bytes(0x1234_5678) == 0x7856_3412);
}

#[test]
fn widths_and_signs(rt: HostRuntime) {
    assert!(rt; BYTE.bits() == 8 && WORD.bytes() == 2 && DOUBLEWORD.size() == 0x1_0000_0000);
    assert!(rt; WORD.half() == 0x8000 && is_negative(WORD, 0x8000) && !is_negative(BYTE, 0x7F));
    assert!(rt; sign_extended(BYTE, DOUBLEWORD, 0x80) == 0xFFFF_FF80);
    assert!(rt; sign_extended(WORD, DOUBLEWORD, 0x7FFF) == 0x7FFF);
}

#[test]
fn flags_as_a_word(rt: HostRuntime) {
    assert!(rt; Flags::new().to_word() == 0x202);
    assert!(rt; Flags::of_word(0xFFFF_FFFF).to_word() == 0xED7);
}
