//! The words of a line, one after the other. Each function reads the words in front and answers what
//! is behind them, or none where they are not what it reads.

ghost use Rattle.std.specs.Prelude.{codes, ◌≡◌, ◌<◌, ◌≤◌, ◌^◌, length, Option, Some, None, IfSome};
ghost use Rattle.std.specs.Option.{option_map};
ghost use Rattle.std.specs.Result.{is_ok};
ghost use Rattle.std.specs.Str.{bytes_eq};
ghost use Rattle.std.specs.List.{list_all};
ghost use Rattle.hex.specs.Hex.{decode_of, is_hex_digit};
ghost use Rattle.nd_base.specs.Words.{words};
ghost use Rattle.driver_script.specs.Forms.{is_within, word, number, octet_string, from_to, dash_or, take, past, end_read};
ghost use Rattle.driver_script.specs.Items.{port, mac, oid};
ghost use Rattle.driver_script.specs.Statements.{octets};

use hex::decode_to_slice;
use nd_base::words::{decimal, next_word};

/// A word.
pub(crate) fn word(line: &[u8]) -> Option<(&[u8], &[u8])>
    ensures { option_map (λ x. (x.0.now, words x.1.now)) result ≡ take word (words line.now) }
{
    next_word(line)
}

/// A word that stands there.
pub(crate) fn past<'a>(line: &'a [u8], name: &[u8]) -> Option<&'a [u8]>
    ensures { option_map (λ x. words x.now) result ≡ past name.now (words line.now) }
{
    let (word, rest) = next_word(line)?;
    if word != name {
        return None;
    }
    Some(rest)
}

/// The end of the line.
pub(crate) fn end(line: &[u8]) -> Option<()>
    ensures { result ≡ end_read (words line.now) }
{
    match next_word(line) {
        Some(_) => None,
        None => Some(()),
    }
}

fn is_within(least: u64, most: u64, n: u64) -> bool
    ensures { result ≡ is_within least most n }
{
    least <= n && n <= most
}

/// The value of a decimal number from `least` to `most`.
fn number_of(word: &[u8], least: u64, most: u64) -> Option<u32>
    requires { most < 2 ^ 32 }
    ensures value { result ≡ (number least most).read word.now }
    ensures within { IfSome result (λ n. (least ≤ n) × (n ≤ most)) }
{
    let value = decimal(word)?;
    if !is_within(least, most, value) {
        return None;
    }
    Some(value as u32)
}

/// A decimal number from `least` to `most`, which is below 2^32.
pub(crate) fn number(line: &[u8], least: u64, most: u64) -> Option<(u32, &[u8])>
    requires { most < 2 ^ 32 }
    ensures value { option_map (λ x. (x.0, words x.1.now)) result ≡ take (number least most) (words line.now) }
    ensures within { IfSome result (λ x. (least ≤ x.0) × (x.0 ≤ most)) }
{
    let (word, rest) = next_word(line)?;
    Some((number_of(word, least, most)?, rest))
}

fn is_digit(byte: u8) -> bool
    ensures { result ≡ is_hex_digit byte }
{
    byte.is_ascii_hexdigit()
}

fn are_digits(word: &[u8]) -> bool
    ensures { result ≡ list_all is_hex_digit word.now }
{
    word.iter().all(|byte| is_digit(*byte))
}

/// Whether a word is bytes in hexadecimal.
fn is_hexadecimal(word: &[u8]) -> bool
    ensures { result ≡ is_ok (decode_of word.now) }
{
    word.len() % 2 == 0 && are_digits(word)
}

/// The digits of `least` to `most` bytes.
pub(crate) fn digits(line: &[u8], least: u64, most: u64) -> Option<(&[u8], &[u8])>
    ensures { option_map (λ x. (octets x.0.now, words x.1.now)) result ≡ take (from_to least most octet_string) (words line.now) }
{
    let (word, rest) = next_word(line)?;
    let count = word.len() as u64 / 2;
    if !is_hexadecimal(word) {
        return None;
    }
    if !is_within(least, most, count) {
        return None;
    }
    Some((word, rest))
}

/// Whether a word is `-`.
fn is_dash(word: &[u8]) -> bool
    ensures { result ≡ bytes_eq word.now (codes "-") }
{
    word == b"-".as_slice()
}

/// The digits of one byte or more, or `-` for no byte.
pub(crate) fn dash_or_digits(line: &[u8]) -> Option<(&[u8], &[u8])>
    ensures { option_map (λ x. (octets x.0.now, words x.1.now)) result ≡ take (dash_or octet_string) (words line.now) }
{
    let (word, rest) = next_word(line)?;
    if is_dash(word) {
        return Some((word, rest));
    }
    if !is_hexadecimal(word) {
        return None;
    }
    Some((word, rest))
}

/// The two bytes of a word.
fn two_octets(word: &[u8]) -> Option<[u8; 2]>
    ensures { result ≡ (from_to 2 2 octet_string).read word.now }
{
    let mut octets = [0; 2];
    match decode_to_slice(word, &mut octets) {
        Ok(()) => Some(octets),
        Err(_) => None,
    }
}

/// The four bytes of a word.
fn four_octets(word: &[u8]) -> Option<[u8; 4]>
    ensures { result ≡ (from_to 4 4 octet_string).read word.now }
{
    let mut octets = [0; 4];
    match decode_to_slice(word, &mut octets) {
        Ok(()) => Some(octets),
        Err(_) => None,
    }
}

/// The six bytes of a word.
fn six_octets(word: &[u8]) -> Option<[u8; 6]>
    ensures { result ≡ (from_to 6 6 octet_string).read word.now }
{
    let mut octets = [0; 6];
    match decode_to_slice(word, &mut octets) {
        Ok(()) => Some(octets),
        Err(_) => None,
    }
}

/// The first of an adapter's ports.
pub(crate) fn port(line: &[u8]) -> Option<(u16, &[u8])>
    ensures { option_map (λ x. (x.0, words x.1.now)) result ≡ take port (words line.now) }
{
    let (word, rest) = next_word(line)?;
    let first = u16::from_be_bytes(two_octets(word)?);
    if first < 0x200 || first > 0x3e0 || first % 0x20 != 0 {
        return None;
    }
    Some((first, rest))
}

/// The station address of an adapter.
pub(crate) fn mac(line: &[u8]) -> Option<([u8; 6], &[u8])>
    ensures { option_map (λ x. (x.0, words x.1.now)) result ≡ take mac (words line.now) }
{
    let (word, rest) = next_word(line)?;
    let address = six_octets(word)?;
    if address[0] % 2 != 0 {
        return None;
    }
    Some((address, rest))
}

/// An OID.
pub(crate) fn oid(line: &[u8]) -> Option<(u32, &[u8])>
    ensures { option_map (λ x. (x.0, words x.1.now)) result ≡ take oid (words line.now) }
{
    let (word, rest) = next_word(line)?;
    Some((u32::from_be_bytes(four_octets(word)?), rest))
}
