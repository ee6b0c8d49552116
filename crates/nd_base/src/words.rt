//! Texts that are read line by line: their lines, words and decimal numbers.

ghost use Rattle.std.specs.Prelude.{◌≡◌, ◌==◌, ◌∷◌, [], ◌-◌, ◌<◌, ◌^◌, min, length, MatchOption};
ghost use Rattle.std.specs.List.{position};
ghost use Rattle.std.specs.Str.Lines.{lines, strip_carriage_return};
ghost use Rattle.nd_base.specs.Words.{is_blank, words, with_word, IsDecimal, decimal_value, digits_after, may_be_decimal, decimal_of, saturated};

fn is_blank(byte: u8) -> bool
    ensures { result ≡ is_blank byte }
{
    byte == b' ' || byte == b'\t'
}

/// A line without the carriage return at its end.
fn without_return(line: &[u8]) -> &[u8]
    ensures { result.now ≡ strip_carriage_return line.now }
{
    if !line.is_empty() && line[line.len() - 1] == b'\r' {
        return &line[..line.len() - 1];
    }
    line
}

/// Where the first line feed stands.
fn line_end(bytes: &[u8]) -> Option<usize>
    ensures { result ≡ position (λ byte. byte == 10) bytes.now }
{
    bytes.iter().position(|byte| *byte == b'\n')
}

/// Where the first blank stands.
fn part_end(bytes: &[u8]) -> Option<usize>
    ensures { result ≡ position is_blank bytes.now }
{
    bytes.iter().position(|byte| is_blank(*byte))
}

/// The first line without its end, LF or CRLF, and what is behind it.
pub fn next_line(bytes: &[u8]) -> (&[u8], &[u8])
    requires { 0 < length bytes.now }
    ensures lines { lines bytes.now ≡ result.0.now ∷ lines result.1.now }
    ensures shorter { length result.1.now < length bytes.now }
{
    match line_end(bytes) {
        Some(end) => (without_return(&bytes[..end]), &bytes[end + 1..]),
        None => (bytes, &[]),
    }
}

/// What is in front of the first blank, and what is behind it.
fn first_part(bytes: &[u8]) -> (&[u8], &[u8])
    ensures words { words bytes.now ≡ with_word result.0.now (words result.1.now) }
    ensures shorter { 0 < length bytes.now → length result.1.now < length bytes.now }
{
    match part_end(bytes) {
        Some(end) => (&bytes[..end], &bytes[end + 1..]),
        None => (bytes, &[]),
    }
}

/// The first word of a line, and what is behind it. Words are parted by spaces and tabs.
pub fn next_word(bytes: &[u8]) -> Option<(&[u8], &[u8])>
    ensures { MatchOption result (words bytes.now ≡ []) (λ x. words bytes.now ≡ x.0.now ∷ words x.1.now) }
{
    let mut rest = bytes;
    while !rest.is_empty() {
        let (part, behind) = first_part(rest);
        if !part.is_empty() {
            return Some((part, behind));
        }
        rest = behind;
    }
    None
}

/// Whether a word begins as a decimal number: with a byte, and with `0` only where it is alone.
fn may_be_decimal(word: &[u8]) -> bool
    ensures { result ≡ may_be_decimal word.now }
{
    match word {
        [] => false,
        [first, others @ ..] => *first != b'0' || others.is_empty(),
    }
}

/// The number that digits stand for, or 2^64 - 1 where it is greater.
fn digits(word: &[u8]) -> Option<u64>
    ensures { result ≡ saturated (digits_after 0 word.now) }
{
    let mut value = 0u64;
    for byte in word {
        let digit = char::from(*byte).to_digit(10)?;
        value = value.saturating_mul(10).saturating_add(u64::from(digit));
    }
    Some(value)
}

/// The value of a word that is a decimal number, digits without a sign and without a leading zero,
/// or 2^64 - 1 where it is greater.
pub fn decimal(word: &[u8]) -> Option<u64>
    ensures value { result ≡ saturated (decimal_of word.now) }
    ensures decimal { MatchOption result (¬ IsDecimal word.now) (λ n. IsDecimal word.now × (n ≡ min (decimal_value word.now) (2 ^ 64 - 1))) }
{
    if !may_be_decimal(word) {
        return None;
    }
    digits(word)
}
