//! The characters of a file.

ghost use Rattle.std.specs.Prelude.{◌≡◌, ◌*◌, ◌<◌, ◌≤◌, ◌==◌, length, slice_index, IfOk, IfSome};
ghost use Rattle.std.specs.Char.Utf16.{is_high_surrogate, is_low_surrogate};
ghost use Rattle.std.specs.List.{position};
ghost use Rattle.inf_text.specs.Characters.{units, is_bad, first_bad, has_mark, bad_behind, bad_byte, text_of};

use nd_base::OutOfMemory;
use std::alloc::Global;

/// The first half of a surrogate pair.
fn is_high(unit: u16) -> bool
    ensures { result ≡ is_high_surrogate unit }
{
    (0xd800..0xdc00).contains(&unit)
}

/// The second half of a surrogate pair.
fn is_low(unit: u16) -> bool
    ensures { result ≡ is_low_surrogate unit }
{
    (0xdc00..0xe000).contains(&unit)
}

/// Whether no text has the unit between these two.
fn is_bad(before: u16, unit: u16, after: u16) -> bool
    ensures { result ≡ is_bad before unit after }
{
    unit == 0 || (is_high(unit) && !is_low(after)) || (is_low(unit) && !is_high(before))
}

/// The unit of two bytes each at a place, the low byte first, and 0 behind the last one.
#[tactic(auto, using(crate::proofs::Loops::unit_here, crate::proofs::Loops::no_unit))]
fn unit_at(bytes: &[u8], i: usize) -> u16
    ensures { result ≡ slice_index (units bytes.now) i }
{
    if i < bytes.len() / 2 {
        u16::from(bytes[2 * i]) + 256 * u16::from(bytes[2 * i + 1])
    } else {
        0
    }
}

/// The place of the first unit that no text has there.
#[tactic(auto, using(crate::proofs::Loops::bad_on, crate::proofs::Loops::bad_here, crate::proofs::Loops::bad_end, crate::proofs::Loops::units_half, crate::proofs::Loops::further_none))]
fn first_bad(bytes: &[u8]) -> Option<usize>
    ensures value { result ≡ first_bad 0 (units bytes.now) }
    ensures within { IfSome result (λ i. 2 * i < length bytes.now) }
{
    let mut before = 0;
    for i in 0..bytes.len() / 2 {
        let unit = unit_at(bytes, i);
        if is_bad(before, unit, unit_at(bytes, i + 1)) {
            return Some(i);
        }
        before = unit;
    }
    None
}

/// The byte of a file at which bytes behind its mark are no text.
fn bad_behind(bytes: &[u8]) -> Option<u32>
    requires { length bytes.now < 1048577 }
    ensures { result ≡ bad_behind (first_bad 0 (units bytes.now)) bytes.now }
{
    match first_bad(bytes) {
        Some(i) => Some(2 + 2 * (i as u32)),
        None => {
            if bytes.len() % 2 == 0 {
                None
            } else {
                Some(1 + bytes.len() as u32)
            }
        }
    }
}

/// The place of the first byte that is zero.
fn first_zero(bytes: &[u8]) -> Option<usize>
    ensures { result ≡ position (λ b. b == 0) bytes.now }
{
    bytes.iter().position(|byte| *byte == 0)
}

/// The first byte of a file without the mark at which no text stands.
fn zero_byte(bytes: &[u8]) -> Option<u32>
    requires { length bytes.now < 1048577 }
    ensures { result ≡ position (λ b. b == 0) bytes.now }
{
    match first_zero(bytes) {
        Some(i) => Some(i as u32),
        None => None,
    }
}

fn has_mark(bytes: &[u8]) -> bool
    ensures { result ≡ has_mark bytes.now }
{
    bytes.len() >= 2 && bytes[0] == 0xff && bytes[1] == 0xfe
}

/// The first byte of a file at which no text stands.
pub fn bad_byte(bytes: &[u8]) -> Option<u32>
    requires { length bytes.now < 1048577 }
    ensures { result ≡ bad_byte bytes.now }
{
    if has_mark(bytes) {
        bad_behind(&bytes[2..])
    } else {
        zero_byte(bytes)
    }
}

/// The units of two bytes each.
fn units(alloc: Global, bytes: &[u8]) -> Result<Vec<u16>, OutOfMemory>
    ensures value { IfOk result (λ v. v.items ≡ units bytes.now) }
    ensures short { IfOk result (λ v. length v.items ≤ length bytes.now) }
{
    let mut found = Vec::new(alloc);
    for i in 0..bytes.len() / 2 {
        found.push(unit_at(bytes, i))?;
    }
    Ok(found)
}

/// The units that stand for each byte.
fn widened(alloc: Global, bytes: &[u8]) -> Result<Vec<u16>, OutOfMemory>
    ensures { IfOk result (λ v. v.items ≡ bytes.now) }
{
    let mut found = Vec::new(alloc);
    for byte in bytes {
        found.push(u16::from(*byte))?;
    }
    Ok(found)
}

/// The characters of a file.
pub fn text_of(alloc: Global, bytes: &[u8]) -> Result<Vec<u16>, OutOfMemory>
    ensures value { IfOk result (λ v. v.items ≡ text_of bytes.now) }
    ensures short { IfOk result (λ v. length v.items ≤ length bytes.now) }
{
    if has_mark(bytes) {
        units(alloc, &bytes[2..])
    } else {
        widened(alloc, bytes)
    }
}
