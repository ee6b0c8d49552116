//! Lines, words and decimal numbers, and hexadecimal digits.

ghost use Rattle.std.specs.Prelude.{◌≡◌, ◌++◌, IfOk, string_bytes, codes};
ghost use Rattle.nd_base.specs.Text.{hex_word};

use nd_base::{laws, words};
use std::alloc::{AllocError, Global};
use std::test::Fail;

#[test]
fn decimal_numbers(rt: HostRuntime) {
    assert!(rt; words::decimal(b"0") == Some(0));
    assert!(rt; words::decimal(b"104") == Some(104));
    assert!(rt; words::decimal(b"4294967296") == Some(0x1_0000_0000));
    assert!(rt; words::decimal(b"18446744073709551615") == Some(u64::MAX));
    assert!(rt; words::decimal(b"99999999999999999999999") == Some(u64::MAX));
    for word in [
        b"".as_slice(),
        b"00",
        b"08",
        b"+8",
        b"-8",
        b"8 ",
        b"0x8",
        b"8a",
    ] {
        assert!(rt; words::decimal(word) == None);
    }
}

#[test]
fn lines_and_words(rt: HostRuntime) {
    let (line, rest) = words::next_line(b"a  = 7\t\r\n\r\nb");
    assert!(rt; line == b"a  = 7\t".as_slice() && rest == b"\r\nb".as_slice());
    let (blank, rest) = words::next_line(b"\r\nb");
    assert!(rt; blank.is_empty() && rest == b"b".as_slice());
    assert!(rt; words::next_word(b" \t ") == None);
    assert!(rt; words::next_word(b"\ta  = 7") == Some((b"a".as_slice(), b" = 7".as_slice())));
}

/// A caller of the law of padded digits.
fn padded(alloc: Global, word: u32) -> Result<String, AllocError>
    ensures { IfOk result (λ text. string_bytes text ≡ codes "to " ++ hex_word word) }
{
    laws::hex_digits_are_padded();
    format!(in alloc; "to {word:08x}")
}

#[test]
fn hexadecimal_digits(rt: HostRuntime) -> Result<(), Fail> {
    let text = padded(rt.alloc(), 0xC0FE)?;
    assert!(rt; text.as_str() == "to 0000c0fe");
    Ok(())
}
