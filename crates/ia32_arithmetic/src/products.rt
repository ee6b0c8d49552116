//! Products and quotients, over numbers of twice the width: an upper and a lower half.

ghost use Rattle.std.specs.Prelude.{◌≡◌, ◌≤◌, ◌<◌, ◌+◌, ◌*◌, ◌^◌, IfSome};
ghost use Rattle.ia32_arithmetic.specs.Widths.{size};
ghost use Rattle.ia32_arithmetic.specs.Products.{square, multiplied, doubled, signed_product, is_large, multiplied_signed, pair, divided, is_minus, magnitude, with_sign, distance, quotient_fits, quotient_signed, divided_signed};

use crate::flags::Flags;
use crate::widths::{Width, is_negative};

/// A product of two numbers.
#[derive(Clone, Copy, Debug, PartialEq, Eq)]
pub struct Product {
    pub high: u32,
    pub low: u32,
    pub flags: Flags,
}

/// A quotient and its remainder.
#[derive(Clone, Copy, Debug, PartialEq, Eq)]
pub struct Quotient {
    pub quotient: u32,
    pub remainder: u32,
}

/// MUL: the unsigned product. CF and OF say that its upper half counts.
#[tactic(auto, unfolding(crate::specs::Products::multiplied))]
pub fn multiply(w: Width, a: u32, b: u32, flags: Flags) -> Product
    requires a_in { a < size w }
    requires b_in { b < size w }
    ensures value { result ≡ multiplied w a b flags }
    ensures high { result.high < size w }
    ensures low { result.low < size w }
{
    let product = u64::from(a) * u64::from(b);
    let high = (product / w.size()) as u32;
    let low = (product % w.size()) as u32;
    let large = high != 0;
    let flags = Flags {
        carry: large,
        overflow: large,
        ..flags
    };
    Product { high, low, flags }
}

/// How many numbers there are of twice the width.
fn square(w: Width) -> u128
    ensures value { result ≡ square w }
    ensures low { 2 ^ 16 ≤ result }
    ensures high { result ≤ 2 ^ 64 }
    ensures above { size w ≤ result }
{
    match w {
        Width::Byte => 0x1_0000,
        Width::Word => 0x1_0000_0000,
        Width::Doubleword => 0x1_0000_0000_0000_0000,
    }
}

/// A number as one of twice the width with the same sign.
#[tactic(auto, unfolding(crate::specs::Products::doubled))]
fn doubled(w: Width, a: u32) -> u64
    requires { a < size w }
    ensures { result ≡ doubled w a }
{
    if is_negative(w, a) {
        (square(w) - u128::from(w.size()) + u128::from(a)) as u64
    } else {
        u64::from(a)
    }
}

/// The signed product, in twice the width.
#[tactic(auto, unfolding(crate::specs::Products::signed_product))]
fn signed_product(w: Width, a: u32, b: u32) -> u64
    requires a_in { a < size w }
    requires b_in { b < size w }
    ensures value { result ≡ signed_product w a b }
{
    let x = doubled(w, a);
    let y = doubled(w, b);
    (u128::from(x) * u128::from(y) % square(w)) as u64
}

/// The product is not its lower half with the same sign.
#[tactic(auto, unfolding(crate::specs::Products::is_large))]
fn is_large(w: Width, product: u64) -> bool
    ensures { result ≡ is_large w product }
{
    let low = (product % w.size()) as u32;
    doubled(w, low) != product
}

/// IMUL: the signed product. CF and OF say that its upper half counts.
#[tactic(auto, unfolding(crate::specs::Products::multiplied_signed))]
pub fn multiply_signed(w: Width, a: u32, b: u32, flags: Flags) -> Product
    requires a_in { a < size w }
    requires b_in { b < size w }
    ensures value { result ≡ multiplied_signed w a b flags }
    ensures high { result.high < size w }
    ensures low { result.low < size w }
{
    let product = signed_product(w, a, b);
    let high = (product / w.size() % w.size()) as u32;
    let low = (product % w.size()) as u32;
    let large = is_large(w, product);
    let flags = Flags {
        carry: large,
        overflow: large,
        ..flags
    };
    Product { high, low, flags }
}

/// The number with these two halves.
fn pair(w: Width, high: u32, low: u32) -> u64
    requires high { high < size w }
    requires low { low < size w }
    ensures value { result ≡ pair w high low }
    ensures fits { result < square w }
{
    u64::from(high) * w.size() + u64::from(low)
}

/// DIV: the unsigned quotient. There is none by 0, nor where it does not fit.
#[tactic(auto, unfolding(crate::specs::Products::divided))]
pub fn divide(w: Width, high: u32, low: u32, by: u32) -> Option<Quotient>
    requires high { high < size w }
    requires low { low < size w }
    requires by { by < size w }
    ensures value { result ≡ divided w (pair w high low) by }
    ensures fits { IfSome result (λ q. (q.quotient < size w) × (q.remainder < size w)) }
{
    if by == 0 {
        return None;
    }
    let a = pair(w, high, low);
    let by = u64::from(by);
    if a / by >= w.size() {
        return None;
    }
    Some(Quotient {
        quotient: (a / by) as u32,
        remainder: (a % by) as u32,
    })
}

/// Below 0 as a signed number of twice the width.
fn is_minus(w: Width, a: u64) -> bool
    ensures { result ≡ is_minus w a }
{
    u128::from(a) >= square(w) / 2
}

/// The distance from 0.
#[tactic(auto, unfolding(crate::specs::Products::magnitude))]
fn magnitude(w: Width, a: u64) -> u128
    ensures value { result ≡ magnitude w a }
{
    if is_minus(w, a) {
        square(w).saturating_sub(u128::from(a))
    } else {
        u128::from(a)
    }
}

/// A distance from 0 as a number of the width.
#[tactic(auto, unfolding(crate::specs::Products::with_sign))]
fn with_sign(w: Width, minus: bool, n: u128) -> u32
    requires { n ≤ size w }
    ensures value { result ≡ with_sign w minus n }
    ensures fits { result < size w }
{
    let size = u128::from(w.size());
    if minus {
        ((size - n) % size) as u32
    } else {
        (n % size) as u32
    }
}

/// Whether a signed number of the width is so far from 0.
fn quotient_fits(w: Width, minus: bool, n: u128) -> bool
    ensures { result ≡ quotient_fits w minus n }
{
    if minus {
        n <= u128::from(w.half())
    } else {
        n < u128::from(w.half())
    }
}

/// The distance from 0 of a number of the width.
#[tactic(auto, unfolding(crate::specs::Products::distance))]
fn distance(w: Width, d: u32) -> u64
    requires fits { d < size w }
    ensures value { result ≡ distance w d }
    ensures low { 0 < d → 0 < result }
    ensures high { result ≤ size w }
{
    if is_negative(w, d) {
        w.size() - u64::from(d)
    } else {
        u64::from(d)
    }
}

/// The signed quotient by what is not 0.
#[tactic(auto, unfolding(crate::specs::Products::quotient_signed))]
fn quotient_signed(w: Width, a: u64, by: u32) -> Option<Quotient>
    requires some { 0 < by }
    requires fits { by < size w }
    ensures value { result ≡ quotient_signed w a by }
    ensures fits { IfSome result (λ q. (q.quotient < size w) × (q.remainder < size w)) }
{
    let minus = is_minus(w, a) != is_negative(w, by);
    let x = magnitude(w, a);
    let y = u128::from(distance(w, by));
    if !quotient_fits(w, minus, x / y) {
        return None;
    }
    Some(Quotient {
        quotient: with_sign(w, minus, x / y),
        remainder: with_sign(w, is_minus(w, a), x % y),
    })
}

/// IDIV: the signed quotient, rounded to 0, whose remainder has the sign of what is divided. There
/// is none by 0, nor where it does not fit.
#[tactic(auto, unfolding(crate::specs::Products::divided_signed))]
pub fn divide_signed(w: Width, high: u32, low: u32, by: u32) -> Option<Quotient>
    requires high { high < size w }
    requires low { low < size w }
    requires by { by < size w }
    ensures value { result ≡ divided_signed w (pair w high low) by }
    ensures fits { IfSome result (λ q. (q.quotient < size w) × (q.remainder < size w)) }
{
    if by == 0 {
        return None;
    }
    quotient_signed(w, pair(w, high, low), by)
}
