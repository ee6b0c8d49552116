//! Single bits, and the order of bytes.

ghost use Rattle.std.specs.Prelude.{◌≡◌, ◌≤◌, ◌<◌, ◌+◌, ◌*◌, ◌^◌};
ghost use Rattle.ia32_arithmetic.specs.Widths.{size, bits};
ghost use Rattle.ia32_arithmetic.specs.Bits.{has_bit, changed_bit, lowest_bit, highest_bit, swapped};

use crate::widths::Width;

/// What BTS, BTR and BTC do to a bit.
#[derive(Clone, Copy, Debug, PartialEq, Eq)]
pub enum BitOp {
    Set,
    Reset,
    Complement,
}

/// Whether a bit of a number is set.
pub fn has_bit(a: u32, n: u8) -> bool
    requires { n < 32 }
    ensures { result ≡ has_bit a n }
{
    (a >> n) % 2 == 1
}

/// The number that has that bit alone.
#[tactic(auto, using(crate::proofs::Sets::bit_powers))]
fn power(w: Width, n: u8) -> u32
    requires { n < bits w }
    ensures value { result ≡ 2 ^ n }
    ensures fits { result < size w }
{
    1 << n
}

/// BTS, BTR and BTC: the number with that bit changed.
#[tactic(auto, using(crate::proofs::Sets::bit_widths), unfolding(crate::specs::Bits::changed_bit))]
pub fn change_bit(op: BitOp, w: Width, a: u32, n: u8) -> u32
    requires bit { n < bits w }
    requires fits { a < size w }
    ensures value { result ≡ changed_bit op a n }
    ensures fits { result < size w }
{
    let power = power(w, n);
    match op {
        BitOp::Set => a | power,
        BitOp::Reset => (a | power) ^ power,
        BitOp::Complement => a ^ power,
    }
}

/// BSF: the number of the lowest bit that is set.
#[tactic(auto, using(crate::proofs::Sets::scans), unfolding(crate::specs::Bits::lowest_bit))]
pub fn lowest_bit(a: u32) -> u32
    requires { 0 < a }
    ensures value { result ≡ lowest_bit a }
    ensures fits { result ≤ 32 }
{
    a.trailing_zeros()
}

/// BSR: the number of the highest bit that is set.
#[tactic(auto, using(crate::proofs::Sets::scans), unfolding(crate::specs::Bits::highest_bit))]
pub fn highest_bit(a: u32) -> u32
    requires { 0 < a }
    ensures value { result ≡ highest_bit a }
    ensures fits { result ≤ 32 }
{
    31 - a.leading_zeros()
}

/// BSWAP: the four bytes in the other order.
#[tactic(auto, unfolding(crate::specs::Bits::swapped))]
pub fn swap_bytes(a: u32) -> u32
    ensures { result ≡ swapped a }
{
    a % 0x100 * 0x100_0000
        + a / 0x100 % 0x100 * 0x1_0000
        + a / 0x1_0000 % 0x100 * 0x100
        + a / 0x100_0000
}
