//! Bytes in hexadecimal.

ghost use Rattle.std.specs.Prelude.{◌≡◌, ◌<◌, ◌++◌, OnOk};
ghost use Rattle.asm_lines.specs.Values.{digit_or_0, octets_of};

use asm_lines::hex_digit;
use nd_base::{Bytes, OutOfMemory};

/// The value of a digit, 0 where it is none.
fn digit_or_0(byte: u8) -> u8
    ensures value { result ≡ digit_or_0 byte }
    ensures small { result < 16 }
{
    hex_digit(byte).unwrap_or(0)
}

/// Puts the bytes that digits stand for behind others.
#[tactic(auto, using(crate::proofs::OctetLaws::octet_behind), unfolding(asm_lines::specs::Values::octets_of))]
pub fn put_octets(out: &mut Bytes, digits: &[u8]) -> Result<(), OutOfMemory>
    ensures { OnOk result (out.new ≡ out.old ++ octets_of digits.now) }
{
    let mut rest = digits;
    while let Some((high, more)) = rest.split_first() {
        let Some((low, behind)) = more.split_first() else {
            return Ok(());
        };
        out.push(digit_or_0(*high) * 16 + digit_or_0(*low))?;
        rest = behind;
    }
    Ok(())
}
