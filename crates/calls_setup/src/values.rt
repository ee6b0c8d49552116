//! What a driver reads a parameter as.

ghost use Rattle.std.specs.Prelude.{◌≡◌, ◌<◌, ◌≤◌, ◌+◌, ◌*◌, ◌^◌, ◌++◌, length, IfOk, OnOk, IfErr};
ghost use Rattle.std.specs.Char.{digit_value};
ghost use Rattle.std.specs.Option.{SomeIff};
ghost use Rattle.std.specs.List.{flat_map};
ghost use Rattle.std.specs.Int.{w16, to_le_bytes};
ghost use Rattle.inf_file.specs.Numbers as numbers;
ghost use Rattle.import_answers.specs.Configuration as configuration;
ghost use Rattle.calls_setup.specs.Values.{read_in, read_in_some, IsShort};

use inf_file::ParamValue;
use nd_base::{Bytes, OutOfMemory};
use std::alloc::Global;

/// What a parameter is read as.
#[derive(Clone, Copy)]
pub enum Value<'p> {
    Integer(u32),
    Text(&'p [u16]),
}

/// The most bytes of a string.
const LONGEST: usize = 65_535;

/// The value of a digit of a base, in either case.
fn digit(base: u32, unit: u16) -> Option<u32>
    requires least { 2 ≤ base }
    requires most { base ≤ 16 }
    ensures { SomeIff result (digit_value unit < base) (digit_value unit) }
{
    match u8::try_from(unit) {
        Ok(byte) => char::from(byte).to_digit(base),
        Err(_) => None,
    }
}

/// The number below 2^32 that digits of a base stand for.
#[tactic(auto, unfolding(inf_file::specs::Numbers::digits))]
fn digits(base: u32, text: &[u16]) -> Option<u32>
    requires least { 2 ≤ base }
    requires most { base ≤ 16 }
    ensures { result ≡ numbers.digits base text.now }
{
    if text.is_empty() {
        return None;
    }
    let mut value = 0u64;
    for unit in text {
        let Some(digit) = digit(base, *unit) else {
            return None;
        };
        value = value * u64::from(base) + u64::from(digit);
        if value >= 0x1_0000_0000 {
            return None;
        }
    }
    Some(value as u32)
}

/// A number as it is, and a text of digits alone as the number below 2^32 that they write.
fn number_of(base: u32, value: &ParamValue) -> Option<u32>
    requires least { 2 ≤ base }
    requires most { base ≤ 16 }
    ensures { result ≡ configuration.number_of base value.now }
{
    match value {
        ParamValue::Number(number) => Some(*number),
        ParamValue::Text(text) => digits(base, text.as_slice()),
    }
}

/// A number of a base, as an integer.
fn integer(base: u32, value: &ParamValue) -> Option<Value<'static>>
    requires least { 2 ≤ base }
    requires most { base ≤ 16 }
    ensures { read_in_some result ≡ configuration.integer base value.now }
{
    match number_of(base, value) {
        Some(number) => Some(Value::Integer(number)),
        None => None,
    }
}

/// A text of at most 65,535 bytes, as a string.
fn string(value: &ParamValue) -> Option<Value<'_>>
    ensures { read_in_some result ≡ configuration.string value.now }
{
    match value {
        ParamValue::Text(text) if text.len() <= LONGEST / 2 => Some(Value::Text(text.as_slice())),
        _ => None,
    }
}

/// A value as an integer, in decimal (0) or hexadecimal (1), or as a string (2).
pub fn read_as(kind: u32, value: &ParamValue) -> Option<Value<'_>>
    ensures { read_in_some result ≡ configuration.read_as kind value.now }
{
    match kind {
        0 => integer(10, value),
        1 => integer(16, value),
        2 => string(value),
        _ => None,
    }
}

impl Value<'_> {
    /// How long its block is.
    pub fn block_length(&self) -> u32
        requires { IsShort self.now }
        ensures { result ≡ configuration.block_length (read_in self.now) }
    {
        match self {
            Value::Integer(_) => 8,
            Value::Text(text) => 12 + 2 * text.len() as u32,
        }
    }
}

/// Puts the units of a text behind other bytes.
fn put_units(bytes: &mut Bytes, text: &[u16]) -> Result<(), OutOfMemory>
    ensures { OnOk result (bytes.new ≡ bytes.old ++ flat_map (to_le_bytes w16) text.now) }
{
    for unit in text {
        bytes.extend_from_slice(&unit.to_le_bytes())?;
    }
    Ok(())
}

/// Puts a string behind other bytes whose characters stand at an address, and its characters
/// behind it.
fn put_string(bytes: &mut Bytes, at: u32, text: &[u16]) -> Result<(), OutOfMemory>
    requires { 2 * length text.now ≤ 65535 }
    ensures { OnOk result (bytes.new ≡ bytes.old ++ configuration.string_bytes text.now at) }
{
    let length = (2 * text.len()) as u16;
    bytes.extend_from_slice(&length.to_le_bytes())?;
    bytes.extend_from_slice(&length.to_le_bytes())?;
    bytes.extend_from_slice(&at.to_le_bytes())?;
    put_units(bytes, text)
}

/// The bytes of the block at an address that holds a value of a kind.
pub fn block_bytes(alloc: Global, kind: u32, value: Value, at: u32) -> Result<Bytes, OutOfMemory>
    requires readable { IsShort value }
    requires low { at + 12 < 2 ^ 32 }
    ensures { IfOk result (λ bytes. bytes ≡ configuration.block_bytes kind (read_in value.entry) at) }
{
    let mut bytes = Bytes::copy(alloc, &kind.to_le_bytes())?;
    match value {
        Value::Integer(number) => bytes.extend_from_slice(&number.to_le_bytes())?,
        Value::Text(text) => put_string(&mut bytes, at + 12, text)?,
    }
    Ok(bytes)
}
