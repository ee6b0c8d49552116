//! Writing lines: each function puts the text of what it is given behind the bytes that are there.

ghost use Rattle.std.specs.Prelude.{◌≡◌, ◌++◌, ◌∷◌, ◌≤◌, ◌<◌, true, false, OnOk, map};
ghost use Rattle.std.specs.Option.{option_map};
ghost use Rattle.std.specs.Fmt.{decimal};
ghost use Rattle.log_fields.specs.Codes.{octet_text, word_text, bytes_text, hex, hex_digit, more_text, list_text, optional_text, word as the_word, number as the_number};
ghost use Rattle.log_fields.specs.Fields.{small, write as the_write, write_of, flag_of, direction_name, question as the_question, question_of, cause as the_cause, cause_of, what as the_what, what_of};
ghost use Rattle.log_fields.specs.declared.names.CauseKind.TheVariants as cause_kinds;
ghost use Rattle.log_fields.specs.declared.names.ConditionKind.TheVariants as what_kinds;

use crate::field_values::{Cause, Condition, Direction, Question};
use crate::write::Write;
use itoa::Buffer;
use nd_base::{AdapterNo, BindingNo, Bytes, OutOfMemory};

/// A blank and a name.
pub fn name(out: &mut Bytes, name: &str) -> Result<(), OutOfMemory>
    ensures { OnOk result (out.new ≡ out.old ++ (32 ∷ name.now)) }
{
    out.push(b' ')?;
    out.extend_from_slice(name.as_bytes())
}

/// A decimal number.
fn digits(out: &mut Bytes, n: u64) -> Result<(), OutOfMemory>
    ensures { OnOk result (out.new ≡ out.old ++ decimal n) }
{
    let mut buffer = Buffer::new();
    out.extend_from_slice(buffer.format(n).as_bytes())
}

/// A blank and a decimal number.
pub fn number(out: &mut Bytes, n: u64) -> Result<(), OutOfMemory>
    ensures { OnOk result (out.new ≡ out.old ++ (32 ∷ decimal n)) }
{
    out.push(b' ')?;
    digits(out, n)
}

/// A blank, and 1 or 0.
pub fn flag(out: &mut Bytes, flag: bool) -> Result<(), OutOfMemory>
    ensures { OnOk result (out.new ≡ out.old ++ (32 ∷ decimal (flag_of flag))) }
{
    if flag { number(out, 1) } else { number(out, 0) }
}

/// The digit of a value below 16.
fn hex_digit(d: u8) -> u8
    requires { d < 16 }
    ensures value { result ≡ hex_digit d }
{
    if d < 10 { b'0' + d } else { b'a' + (d - 10) }
}

/// A byte's two digits.
#[tactic(auto, unfolding(crate::specs::Codes::octet_text))]
fn octet(out: &mut Bytes, b: u8) -> Result<(), OutOfMemory>
    ensures { OnOk result (out.new ≡ out.old ++ octet_text b) }
{
    out.extend_from_slice(&[hex_digit(b / 16), hex_digit(b % 16)])
}

/// A blank and a port's two digits.
pub fn port_number(out: &mut Bytes, port: u8) -> Result<(), OutOfMemory>
    ensures { OnOk result (out.new ≡ out.old ++ (32 ∷ octet_text port)) }
{
    out.push(b' ')?;
    octet(out, port)
}

/// A word's eight digits.
#[tactic(auto, unfolding(crate::specs::Codes::word_text))]
fn word_digits(out: &mut Bytes, n: u32) -> Result<(), OutOfMemory>
    ensures { OnOk result (out.new ≡ out.old ++ word_text n) }
{
    octet(out, (n / 0x100_0000) as u8)?;
    octet(out, (n / 0x1_0000 % 0x100) as u8)?;
    octet(out, (n / 0x100 % 0x100) as u8)?;
    octet(out, (n % 0x100) as u8)
}

/// A blank and a word.
pub fn word(out: &mut Bytes, n: u32) -> Result<(), OutOfMemory>
    ensures { OnOk result (out.new ≡ out.old ++ (32 ∷ word_text n)) }
{
    out.push(b' ')?;
    word_digits(out, n)
}

/// The digits of bytes.
fn octets(out: &mut Bytes, bytes: &[u8]) -> Result<(), OutOfMemory>
    ensures { OnOk result (out.new ≡ out.old ++ hex bytes.now) }
{
    for byte in bytes {
        octet(out, *byte)?;
    }
    Ok(())
}

/// The digits of bytes, or `-` for none.
fn byte_digits(out: &mut Bytes, bytes: &[u8]) -> Result<(), OutOfMemory>
    ensures { OnOk result (out.new ≡ out.old ++ bytes_text bytes.now) }
{
    match bytes {
        [] => out.push(b'-'),
        [_, ..] => octets(out, bytes),
    }
}

/// A blank and a byte string.
pub fn byte_string(out: &mut Bytes, bytes: &[u8]) -> Result<(), OutOfMemory>
    ensures { OnOk result (out.new ≡ out.old ++ (32 ∷ bytes_text bytes.now)) }
{
    out.push(b' ')?;
    byte_digits(out, bytes)
}

/// The words behind the first, each behind a comma.
fn more_words(out: &mut Bytes, words: &[u32]) -> Result<(), OutOfMemory>
    ensures { OnOk result (out.new ≡ out.old ++ more_text the_word words.now) }
{
    for word in words {
        out.push(b',')?;
        word_digits(out, *word)?;
    }
    Ok(())
}

/// A blank and a list of words.
pub fn words(out: &mut Bytes, words: &[u32]) -> Result<(), OutOfMemory>
    ensures { OnOk result (out.new ≡ out.old ++ (32 ∷ list_text the_word words.now)) }
{
    out.push(b' ')?;
    match words {
        [] => out.push(b'-'),
        [first, rest @ ..] => {
            word_digits(out, *first)?;
            more_words(out, rest)
        }
    }
}

/// The holders behind the first, each behind a comma.
#[tactic(auto, unfolding(crate::specs::Fields::small))]
fn more_holders(out: &mut Bytes, holders: &[BindingNo]) -> Result<(), OutOfMemory>
    ensures { OnOk result (out.new ≡ out.old ++ more_text small (map (λ h. h.0) holders.now)) }
{
    for holder in holders {
        out.push(b',')?;
        digits(out, u64::from(holder.0))?;
    }
    Ok(())
}

/// A blank and a list of holders.
#[tactic(auto, unfolding(crate::specs::Fields::small))]
pub fn holders(out: &mut Bytes, holders: &[BindingNo]) -> Result<(), OutOfMemory>
    ensures { OnOk result (out.new ≡ out.old ++ (32 ∷ list_text small (map (λ h. h.0) holders.now))) }
{
    out.push(b' ')?;
    match holders {
        [] => out.push(b'-'),
        [first, rest @ ..] => {
            digits(out, u64::from(first.0))?;
            more_holders(out, rest)
        }
    }
}

/// An address, a colon and bytes.
fn write(out: &mut Bytes, write: &Write) -> Result<(), OutOfMemory>
    ensures { OnOk result (out.new ≡ out.old ++ the_write.text (write_of write.now)) }
{
    word_digits(out, write.at.0)?;
    out.push(b':')?;
    byte_digits(out, write.bytes.as_slice())
}

/// The writes behind the first, each behind a comma.
fn more_writes(out: &mut Bytes, writes: &[Write]) -> Result<(), OutOfMemory>
    ensures { OnOk result (out.new ≡ out.old ++ more_text the_write (map write_of writes.now)) }
{
    for each in writes {
        out.push(b',')?;
        write(out, each)?;
    }
    Ok(())
}

/// A blank and a list of writes.
pub fn writes(out: &mut Bytes, writes: &[Write]) -> Result<(), OutOfMemory>
    ensures { OnOk result (out.new ≡ out.old ++ (32 ∷ list_text the_write (map write_of writes.now))) }
{
    out.push(b' ')?;
    match writes {
        [] => out.push(b'-'),
        [first, rest @ ..] => {
            write(out, first)?;
            more_writes(out, rest)
        }
    }
}

/// A blank and an adapter, or `-` for none.
#[tactic(auto, unfolding(crate::specs::Fields::small))]
pub fn adapter_or_none(out: &mut Bytes, adapter: Option<AdapterNo>) -> Result<(), OutOfMemory>
    ensures { OnOk result (out.new ≡ out.old ++ (32 ∷ optional_text small (option_map (λ a. a.0) adapter))) }
{
    match adapter {
        Some(adapter) => number(out, u64::from(adapter.0)),
        None => out.extend_from_slice(b" -"),
    }
}

/// A blank, and `in` or `out`.
pub fn direction(out: &mut Bytes, direction: Direction) -> Result<(), OutOfMemory>
    ensures { OnOk result (out.new ≡ out.old ++ (32 ∷ direction_name direction)) }
{
    match direction {
        Direction::In => name(out, "in"),
        Direction::Out => name(out, "out"),
    }
}

/// A blank, `query`, an OID and a length.
#[tactic(auto, unfolding(crate::specs::Fields::medium))]
fn query(out: &mut Bytes, oid: u32, length: u32) -> Result<(), OutOfMemory>
    ensures { OnOk result (out.new ≡ out.old ++ (32 ∷ the_question.text (true, (oid, length)))) }
{
    name(out, "query")?;
    word(out, oid)?;
    number(out, u64::from(length))
}

/// A blank, `set`, an OID and bytes.
fn set(out: &mut Bytes, oid: u32, octets: &[u8]) -> Result<(), OutOfMemory>
    ensures { OnOk result (out.new ≡ out.old ++ (32 ∷ the_question.text (false, (oid, octets.now)))) }
{
    name(out, "set")?;
    word(out, oid)?;
    byte_string(out, octets)
}

/// A blank and a question.
pub fn question(out: &mut Bytes, question: &Question) -> Result<(), OutOfMemory>
    ensures { OnOk result (out.new ≡ out.old ++ (32 ∷ the_question.text (question_of question.now))) }
{
    match question {
        Question::Query { oid, length } => query(out, *oid, *length),
        Question::Set { oid, bytes } => set(out, *oid, bytes.as_slice()),
    }
}

/// A blank, `breach` and a rule's number.
#[tactic(auto, unfolding(crate::specs::Names::cause_name, crate::specs::Fields::rule))]
fn breach(out: &mut Bytes, rule: u8) -> Result<(), OutOfMemory>
    ensures { OnOk result (out.new ≡ out.old ++ (32 ∷ the_cause.text (cause_kinds.Breach, rule))) }
{
    name(out, "breach")?;
    number(out, u64::from(rule))
}

/// A blank and a cause.
#[tactic(auto, unfolding(crate::specs::Names::cause_name))]
pub fn cause(out: &mut Bytes, cause: Cause) -> Result<(), OutOfMemory>
    ensures { OnOk result (out.new ≡ out.old ++ (32 ∷ the_cause.text (cause_of cause))) }
{
    match cause {
        Cause::Breach(rule) => breach(out, rule.0),
        Cause::Budget => name(out, "budget"),
        Cause::Memory => name(out, "memory"),
    }
}

/// A blank, `frames` and a number.
#[tactic(auto, unfolding(crate::specs::Names::what_name, crate::specs::Fields::large))]
fn frames(out: &mut Bytes, count: u64) -> Result<(), OutOfMemory>
    ensures { OnOk result (out.new ≡ out.old ++ (32 ∷ the_what.text (what_kinds.Frames, count))) }
{
    name(out, "frames")?;
    number(out, count)
}

/// A blank and what is awaited.
pub fn what(out: &mut Bytes, what: Condition) -> Result<(), OutOfMemory>
    ensures { OnOk result (out.new ≡ out.old ++ (32 ∷ the_what.text (what_of what))) }
{
    match what {
        Condition::Up => name(out, "up"),
        Condition::Sent => name(out, "sent"),
        Condition::Replies => name(out, "replies"),
        Condition::Frames(count) => frames(out, count),
        Condition::Room => name(out, "room"),
        Condition::All => name(out, "all"),
    }
}
