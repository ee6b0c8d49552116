//! Numbers in decimal and hexadecimal.

ghost use Rattle.std.specs.Prelude.{◌≡◌, ◌<◌, ◌≤◌};
ghost use Rattle.std.specs.Char.{digit_value};
ghost use Rattle.std.specs.Option.{SomeIff};
ghost use Rattle.inf_file.specs.Numbers.{digits, number_of};

/// The value of a digit of a base, in either case.
fn digit(base: u32, unit: u16) -> Option<u32>
    requires least { 2 ≤ base }
    requires most { base ≤ 16 }
    ensures { SomeIff result (digit_value unit < base) (digit_value unit) }
{
    match u8::try_from(unit) {
        Ok(byte) => char::from(byte).to_digit(base),
        Err(_) => None,
    }
}

/// The number below 2^32 that digits of a base stand for.
#[tactic(auto, unfolding(crate::specs::Numbers::digits))]
fn digits(base: u32, text: &[u16]) -> Option<u32>
    requires least { 2 ≤ base }
    requires most { base ≤ 16 }
    ensures { result ≡ digits base text.now }
{
    if text.is_empty() {
        return None;
    }
    let mut value = 0u64;
    for unit in text {
        let Some(digit) = digit(base, *unit) else {
            return None;
        };
        value = value * u64::from(base) + u64::from(digit);
        if value >= 0x1_0000_0000 {
            return None;
        }
    }
    Some(value as u32)
}

/// `0x`.
const HEX: [u16; 2] = [48, 120];

/// The number below 2^32 of a decimal or `0x` text.
#[tactic(auto, unfolding(crate::specs::Numbers::number_of))]
pub fn number_of(text: &[u16]) -> Option<u32>
    ensures { result ≡ number_of text.now }
{
    match text.strip_prefix(&HEX) {
        Some(rest) => digits(16, rest),
        None => digits(10, text),
    }
}
