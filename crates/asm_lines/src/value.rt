//! Numbers and names in source.

ghost use Rattle.std.specs.Prelude.{◌≡◌, ◌<◌, IfSome};
ghost use Rattle.std.specs.Option.{option_map};
ghost use Rattle.asm_lines.specs.Values.{hex_digit, hex_after, is_letter, is_name_byte, is_name_rest, is_name, is_label, are_octets, hex_digits, number_of, value_of, value_seen};

use crate::register::register_of;
use nd_base::words::decimal;

/// A value: a number, or the address of a label.
#[derive(Clone, Copy)]
pub enum Value<'a> {
    /// One of 2^64 - 1 and more counts as 2^64 - 1.
    Number(u64),
    Address(&'a [u8]),
}

/// The value of a hexadecimal digit, in either case.
pub fn hex_digit(byte: u8) -> Option<u8>
    ensures value { result ≡ hex_digit byte }
    ensures small { IfSome result (λ digit. digit < 16) }
{
    match byte {
        b'0'..=b'9' => Some(byte - b'0'),
        b'a'..=b'f' => Some(byte - b'a' + 10),
        b'A'..=b'F' => Some(byte - b'A' + 10),
        _ => None,
    }
}

/// The number that hexadecimal digits stand for.
#[tactic(auto, unfolding(crate::specs::Values::hex_after))]
fn hexadecimal(digits: &[u8]) -> Option<u64>
    ensures { result ≡ hex_after 0 digits.now }
{
    let mut number = 0u64;
    let mut rest = digits;
    while let Some((byte, behind)) = rest.split_first() {
        let digit = hex_digit(*byte)?;
        number = number.saturating_mul(16).saturating_add(u64::from(digit));
        rest = behind;
    }
    Some(number)
}

fn is_letter(byte: u8) -> bool
    ensures { result ≡ is_letter byte }
{
    matches!(byte, b'a'..=b'z' | b'A'..=b'Z' | b'_')
}

fn is_name_byte(byte: u8) -> bool
    ensures { result ≡ is_name_byte byte }
{
    is_letter(byte) || matches!(byte, b'0'..=b'9')
}

/// Whether these bytes may stand behind a name's first.
#[tactic(auto, unfolding(crate::specs::Values::is_name_rest))]
fn is_name_rest(bytes: &[u8]) -> bool
    ensures { result ≡ is_name_rest bytes.now }
{
    let mut rest = bytes;
    while let Some((byte, behind)) = rest.split_first() {
        if !is_name_byte(*byte) {
            return false;
        }
        rest = behind;
    }
    true
}

/// Whether a word is a name: a letter or `_`, and then letters, digits and `_`.
#[tactic(auto, unfolding(crate::specs::Values::is_name))]
pub fn is_name(word: &[u8]) -> bool
    ensures { result ≡ is_name word.now }
{
    match word.split_first() {
        Some((first, rest)) => is_letter(*first) && is_name_rest(rest),
        None => false,
    }
}

/// Whether a word may name a label: it is a name, and no register's.
pub fn is_label(word: &[u8]) -> bool
    ensures { result ≡ is_label word.now }
{
    is_name(word) && register_of(word).is_none()
}

/// Whether digits are bytes: two hexadecimal digits for each.
#[tactic(auto, unfolding(crate::specs::Values::are_octets))]
pub fn are_octets(digits: &[u8]) -> bool
    ensures { result ≡ are_octets digits.now }
{
    let mut rest = digits;
    while let Some((high, more)) = rest.split_first() {
        let Some((low, behind)) = more.split_first() else {
            return false;
        };
        if hex_digit(*high).is_none() || hex_digit(*low).is_none() {
            return false;
        }
        rest = behind;
    }
    true
}

/// The digits behind `0x`.
fn hex_digits(word: &[u8]) -> Option<&[u8]>
    ensures { option_map (λ digits. digits.now) result ≡ hex_digits word.now }
{
    match word {
        [zero, letter, digits @ ..] if *zero == b'0' && (*letter == b'x' && !digits.is_empty()) => {
            Some(digits)
        }
        _ => None,
    }
}

/// The number that a word is: decimal digits, or hexadecimal ones behind `0x`.
#[tactic(auto, unfolding(crate::specs::Values::number_of))]
fn number_of(word: &[u8]) -> Option<u64>
    ensures { result ≡ number_of word.now }
{
    match hex_digits(word) {
        Some(digits) => hexadecimal(digits),
        None => decimal(word),
    }
}

/// The value that a word is.
#[tactic(auto, unfolding(crate::specs::Values::value_of))]
pub fn value_of(word: &[u8]) -> Option<Value<'_>>
    ensures { option_map value_seen result ≡ value_of word.now }
{
    match number_of(word) {
        Some(number) => Some(Value::Number(number)),
        None if is_label(word) => Some(Value::Address(word)),
        None => None,
    }
}
