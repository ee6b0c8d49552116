//! Numbers of a width.

ghost use Rattle.std.specs.Prelude.{◌≡◌, ◌≤◌, ◌<◌, ◌+◌, ◌*◌, ◌^◌, pos, ◌≤ℤ◌, ◌-ℤ◌, ℤ};
ghost use Rattle.ia32_arithmetic.specs.Widths.{bits, bytes, size, half, is_negative, signed, fits_signed, sign_extended};

/// How wide an operand is: 8, 16 or 32 bits.
#[derive(Clone, Copy, Debug, PartialEq, Eq)]
pub enum Width {
    Byte,
    Word,
    Doubleword,
}

impl Width {
    /// How many bits it has.
    #[inline(always)]
    pub fn bits(self) -> u8
        ensures value { result ≡ bits self }
        ensures low { 8 ≤ result }
        ensures high { result ≤ 32 }
    {
        match self {
            Width::Byte => 8,
            Width::Word => 16,
            Width::Doubleword => 32,
        }
    }

    /// How many bytes it has.
    #[inline(always)]
    pub fn bytes(self) -> u32
        ensures value { result ≡ bytes self }
        ensures low { 1 ≤ result }
        ensures high { result ≤ 4 }
    {
        match self {
            Width::Byte => 1,
            Width::Word => 2,
            Width::Doubleword => 4,
        }
    }

    /// How many numbers there are of it.
    #[inline(always)]
    pub fn size(self) -> u64
        ensures value { result ≡ size self }
        ensures low { 256 ≤ result }
        ensures high { result ≤ 2 ^ 32 }
    {
        match self {
            Width::Byte => 0x100,
            Width::Word => 0x1_0000,
            Width::Doubleword => 0x1_0000_0000,
        }
    }

    /// The first number with the sign bit.
    #[inline(always)]
    pub fn half(self) -> u64
        ensures value { result ≡ half self }
        ensures low { 128 ≤ result }
        ensures high { result ≤ 2 ^ 31 }
    {
        match self {
            Width::Byte => 0x80,
            Width::Word => 0x8000,
            Width::Doubleword => 0x8000_0000,
        }
    }
}

/// Whether the sign bit is set.
#[tactic(auto, unfolding(crate::specs::Widths::is_negative))]
#[inline(always)]
pub fn is_negative(w: Width, n: u32) -> bool
    ensures { result ≡ is_negative w n }
{
    u64::from(n) >= w.half()
}

/// The signed number.
#[tactic(auto, unfolding(crate::specs::Widths::signed))]
#[inline(always)]
pub(crate) fn signed(w: Width, n: u32) -> i64
    ensures value { result ≡ signed w n }
    ensures low { (pos 0 -ℤ pos (2 ^ 32)) ≤ℤ result }
    ensures high { result ≤ℤ pos (2 ^ 32) }
{
    if u64::from(n) < w.half() {
        i64::from(n)
    } else {
        i64::from(n) - w.size() as i64
    }
}

/// Whether a signed number of the width is this one.
#[tactic(auto, unfolding(crate::specs::Widths::fits_signed))]
#[inline(always)]
pub(crate) fn fits_signed(w: Width, n: i64) -> bool
    ensures { result ≡ fits_signed w n }
{
    n < w.half() as i64 && n >= -(w.half() as i64)
}

/// A number of the width `v` as one of `w` with the same sign.
#[tactic(auto, unfolding(crate::specs::Widths::sign_extended))]
#[inline]
pub fn sign_extended(v: Width, w: Width, a: u32) -> u32
    requires wider { size v ≤ size w }
    requires fits { a < size v }
    ensures value { result ≡ sign_extended v w a }
    ensures fits { result < size w }
{
    if is_negative(v, a) {
        (w.size() - v.size() + u64::from(a)) as u32
    } else {
        a
    }
}
