//! Reading fields.

ghost use Rattle.std.specs.Prelude.{◌≡◌, ◌++◌, ◌≤◌, ◌<◌, ◌^◌, Some, None, length, true, MatchOption, IfOk};
ghost use Rattle.log_fields.specs.Codes.{Gives, read_number, read_digits, hex_value, pair_value, read_octet, read_word, read_bytes, read_hex, past, is_item_end, is_field_end, before_end, from_end};

use crate::line_refusal::LineRefusal;
use std::alloc::Global;

/// Whether a byte ends a field: a blank or LF.
pub fn is_field_end(byte: u8) -> bool
    ensures { result ≡ is_field_end byte }
{
    byte == b' ' || byte == b'\n'
}

/// Whether a byte ends an item of a list: the end of a field, a comma or a colon.
pub fn is_item_end(byte: u8) -> bool
    ensures { result ≡ is_item_end byte }
{
    is_field_end(byte) || byte == b',' || byte == b':'
}

/// What is behind a byte.
pub fn past(byte: u8, bytes: &[u8]) -> Option<&[u8]>
    ensures { MatchOption result (past byte bytes.now ≡ None) (λ rest. past byte bytes.now ≡ Some rest.now) }
{
    match bytes {
        [first, rest @ ..] if *first == byte => Some(rest),
        _ => None,
    }
}

/// A decimal number up to the greatest one.
pub fn number(max: u64, bytes: &[u8]) -> Result<(u64, &[u8]), LineRefusal>
    ensures read { Gives (λ x. (x.0, x.1.now)) result (read_number max bytes.now) }
    ensures bound { IfOk result (λ x. x.0 ≤ max) }
{
    match bytes {
        [b'0', rest @ ..] => Ok((0, rest)),
        [first, rest @ ..] if first.is_ascii_digit() && u64::from(*first - b'0') <= max => digits(
            max,
            u64::from(*first - b'0'),
            rest,
        ),
        _ => Err(LineRefusal::NoEntry),
    }
}

/// The digits behind the first.
#[tactic(auto, unfolding(crate::specs::Codes::read_digits))]
fn digits(max: u64, first: u64, bytes: &[u8]) -> Result<(u64, &[u8]), LineRefusal>
    requires { first ≤ max }
    ensures read { Gives (λ x. (x.0, x.1.now)) result (read_digits max first bytes.now) }
    ensures bound { IfOk result (λ x. x.0 ≤ max) }
{
    let mut number = first;
    let mut rest = bytes;
    while let Some((byte, after)) = rest.split_first() {
        if !byte.is_ascii_digit() {
            return Ok((number, rest));
        }
        let next = u128::from(number) * 10 + u128::from(*byte - b'0');
        if next > u128::from(max) {
            return Err(LineRefusal::NoEntry);
        }
        number = next as u64;
        rest = after;
    }
    Ok((number, rest))
}

/// The value of a hexadecimal digit, in lower case.
fn hex_value(byte: u8) -> Option<u8>
    ensures { result ≡ hex_value byte }
{
    match byte {
        b'0'..=b'9' => Some(byte - b'0'),
        b'a'..=b'f' => Some(byte - b'a' + 10),
        _ => None,
    }
}

/// The value of two of them.
#[tactic(auto, unfolding(crate::specs::Codes::pair_value))]
pub fn pair_value(high: u8, low: u8) -> Option<u8>
    ensures { result ≡ pair_value high low }
{
    match (hex_value(high), hex_value(low)) {
        (Some(high), Some(low)) => Some(high * 16 + low),
        _ => None,
    }
}

/// A byte's two digits.
pub fn octet(bytes: &[u8]) -> Result<(u8, &[u8]), LineRefusal>
    ensures { Gives (λ x. (x.0, x.1.now)) result (read_octet bytes.now) }
{
    match bytes {
        [high, low, rest @ ..] => match pair_value(*high, *low) {
            Some(value) => Ok((value, rest)),
            None => Err(LineRefusal::NoEntry),
        },
        _ => Err(LineRefusal::NoEntry),
    }
}

/// A word's eight digits.
#[tactic(auto, unfolding(crate::specs::Codes::read_word))]
pub fn word(bytes: &[u8]) -> Result<(u32, &[u8]), LineRefusal>
    ensures { Gives (λ x. (x.0, x.1.now)) result (read_word bytes.now) }
{
    let (a, rest) = octet(bytes)?;
    let (b, rest) = octet(rest)?;
    let (c, rest) = octet(rest)?;
    let (d, rest) = octet(rest)?;
    let word = u32::from(a) * 0x100_0000
        + u32::from(b) * 0x1_0000
        + u32::from(c) * 0x100
        + u32::from(d);
    Ok((word, rest))
}
