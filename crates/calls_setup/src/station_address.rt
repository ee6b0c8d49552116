//! The parameter NetworkAddress.

ghost use Rattle.std.specs.Prelude.{◌≡◌, length, map};
ghost use Rattle.std.specs.Option.{option_and_then};
ghost use Rattle.inf_file.specs.ByName.{value_of};
ghost use Rattle.import_answers.specs.Configuration as configuration;
ghost use Rattle.calls_setup.specs.Digits.{clipped};

use inf_file::{Param, ParamValue};
use inf_text::is_word;

/// The byte of an ASCII character, and 0 of any other.
fn ascii(unit: u16) -> u8
    ensures { result ≡ clipped unit }
{
    match u8::try_from(unit) {
        Ok(byte) => byte,
        Err(_) => 0,
    }
}

/// The bytes of twelve characters.
fn text_of(digits: &[u16]) -> [u8; 12]
    requires { length digits.now ≡ 12 }
    ensures { result ≡ map clipped digits.now }
{
    let mut text = [0; 12];
    for k in 0..12 {
        text[k] = ascii(digits[k]);
    }
    text
}

/// The six bytes that twelve hexadecimal digits stand for.
fn address_of(digits: &[u16]) -> Option<[u8; 6]>
    ensures { result ≡ configuration.address_of digits.now }
{
    if digits.len() != 12 {
        return None;
    }
    let mut bytes = [0; 6];
    match hex::decode_to_slice(text_of(digits).as_slice(), &mut bytes) {
        Ok(()) => Some(bytes),
        Err(_) => None,
    }
}

/// The parameter NetworkAddress, where it is a station address.
pub fn network_address(params: &[Param]) -> Option<[u8; 6]>
    ensures { result ≡ option_and_then configuration.address_in (value_of configuration.network_address params.now) }
{
    for param in params {
        if is_word(param.name.as_slice(), b"NetworkAddress") {
            return match &param.value {
                ParamValue::Text(text) => address_of(text.as_slice()),
                ParamValue::Number(_) => None,
            };
        }
    }
    None
}
