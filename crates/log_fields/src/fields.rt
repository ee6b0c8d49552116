//! Reading the fields of lines.

ghost use Rattle.std.specs.Prelude.{◌≡◌, Some, None, length, map};
ghost use Rattle.log_fields.specs.Codes.{Gives, PastGives, past, before_end, from_end, read_hex, read_bytes, read_list, read_more, with_front, word, byte_string, optional, listed};
ghost use Rattle.std.specs.Option.{option_map};
ghost use Rattle.log_fields.specs.Fields.{small, medium, large, flag, flag_of, width, rule, handler, fault_kind, import, direction, question, question_of, cause, cause_of, read_caused, what, what_of, read_awaited, write, write_of};
ghost use Rattle.log_fields.specs.declared.names.CauseKind.TheVariants as cause_kinds;
ghost use Rattle.log_fields.specs.declared.names.ConditionKind.TheVariants as what_kinds;

use crate::field_values::{Cause, Condition, Direction, FaultKind, Handler, Question};
use crate::holder_list::Holders;
use crate::line_refusal::LineRefusal;
use crate::names::{
    CauseKind, ConditionKind, find_cause, find_fault, find_handler, find_import, find_what,
};
use crate::scalars::{is_field_end, is_item_end, number, octet, pair_value, past, word};
use crate::word_list::Words;
use crate::write::Write;
use crate::write_list::Writes;
use nd_base::{AdapterNo, Addr, BindingNo, Breach, Bytes};
use std::alloc::Global;

/// What is behind a byte that has to stand there.
pub fn behind(byte: u8, bytes: &[u8]) -> Result<&[u8], LineRefusal>
    ensures { PastGives (λ x. x.now) result (past byte bytes.now) }
{
    match past(byte, bytes) {
        Some(rest) => Ok(rest),
        None => Err(LineRefusal::NoEntry),
    }
}

/// What is behind a blank.
pub fn blank(bytes: &[u8]) -> Result<&[u8], LineRefusal>
    ensures { PastGives (λ x. x.now) result (past 32 bytes.now) }
{
    behind(b' ', bytes)
}

/// A number below 256.
#[tactic(auto, unfolding(crate::specs::Fields::small))]
pub fn small(bytes: &[u8]) -> Result<(u8, &[u8]), LineRefusal>
    ensures { Gives (λ x. (x.0, x.1.now)) result (small.read bytes.now) }
{
    let (value, rest) = number(255, bytes)?;
    Ok((value as u8, rest))
}

/// A number below 2^32.
#[tactic(auto, unfolding(crate::specs::Fields::medium))]
pub fn medium(bytes: &[u8]) -> Result<(u32, &[u8]), LineRefusal>
    ensures { Gives (λ x. (x.0, x.1.now)) result (medium.read bytes.now) }
{
    let (value, rest) = number(0xFFFF_FFFF, bytes)?;
    Ok((value as u32, rest))
}

/// A number below 2^64.
#[tactic(auto, unfolding(crate::specs::Fields::large))]
pub fn large(bytes: &[u8]) -> Result<(u64, &[u8]), LineRefusal>
    ensures { Gives (λ x. (x.0, x.1.now)) result (large.read bytes.now) }
{
    number(u64::MAX, bytes)
}

/// 1 or 0.
#[tactic(auto, unfolding(crate::specs::Fields::flag))]
pub fn flag(bytes: &[u8]) -> Result<(bool, &[u8]), LineRefusal>
    ensures { Gives (λ x. (flag_of x.0, x.1.now)) result (flag.read bytes.now) }
{
    let (value, rest) = number(1, bytes)?;
    match value {
        0 => Ok((false, rest)),
        _ => Ok((true, rest)),
    }
}

/// A port's width, 1 or 2.
#[tactic(auto, unfolding(crate::specs::Fields::width))]
pub fn width(bytes: &[u8]) -> Result<(u8, &[u8]), LineRefusal>
    ensures { Gives (λ x. (x.0, x.1.now)) result (width.read bytes.now) }
{
    let (value, rest) = number(2, bytes)?;
    if 1 <= value {
        Ok((value as u8, rest))
    } else {
        Err(LineRefusal::NoEntry)
    }
}

/// A broken rule's number, 1 to 14.
#[tactic(auto, unfolding(crate::specs::Fields::rule))]
pub fn rule(bytes: &[u8]) -> Result<(Breach, &[u8]), LineRefusal>
    ensures { Gives (λ x. (x.0.0, x.1.now)) result (rule.read bytes.now) }
{
    let (value, rest) = number(14, bytes)?;
    if 1 <= value {
        Ok((Breach(value as u8), rest))
    } else {
        Err(LineRefusal::NoEntry)
    }
}

/// A name, and what is behind it.
pub fn name(bytes: &[u8]) -> (&[u8], &[u8])
    ensures { (result.0.now ≡ before_end bytes.now) × (result.1.now ≡ from_end bytes.now) }
{
    let mut at = 0;
    while at < bytes.len() {
        if is_field_end(bytes[at]) {
            return bytes.split_at(at);
        }
        at += 1;
    }
    (bytes, &[])
}

/// A handler's name.
pub fn handler(bytes: &[u8]) -> Result<(Handler, &[u8]), LineRefusal>
    ensures { Gives (λ x. (x.0, x.1.now)) result (handler.read bytes.now) }
{
    let (front, rest) = name(bytes);
    match find_handler(front) {
        Some(found) => Ok((found, rest)),
        None => Err(LineRefusal::NoEntry),
    }
}

/// The name of a kind of fault.
pub fn fault_kind(bytes: &[u8]) -> Result<(FaultKind, &[u8]), LineRefusal>
    ensures { Gives (λ x. (x.0, x.1.now)) result (fault_kind.read bytes.now) }
{
    let (front, rest) = name(bytes);
    match find_fault(front) {
        Some(found) => Ok((found, rest)),
        None => Err(LineRefusal::NoEntry),
    }
}

/// An import's name.
pub fn import(bytes: &[u8]) -> Result<(u8, &[u8]), LineRefusal>
    ensures { Gives (λ x. (x.0, x.1.now)) result (import.read bytes.now) }
{
    let (front, rest) = name(bytes);
    match find_import(front) {
        Some(found) => Ok((found, rest)),
        None => Err(LineRefusal::NoEntry),
    }
}

/// `in` or `out`.
pub fn direction(bytes: &[u8]) -> Result<(Direction, &[u8]), LineRefusal>
    ensures { Gives (λ x. (x.0, x.1.now)) result (direction.read bytes.now) }
{
    let (front, rest) = name(bytes);
    if front == b"in".as_slice() {
        Ok((Direction::In, rest))
    } else if front == b"out".as_slice() {
        Ok((Direction::Out, rest))
    } else {
        Err(LineRefusal::NoEntry)
    }
}

/// An adapter, or `-` for none.
pub fn adapter_or_none(bytes: &[u8]) -> Result<(Option<AdapterNo>, &[u8]), LineRefusal>
    ensures { Gives (λ x. (option_map (λ a. a.0) x.0, x.1.now)) result ((optional small).read bytes.now) }
{
    if bytes.is_empty() {
        return Err(LineRefusal::NoEntry);
    }
    if let Some(rest) = past(b'-', bytes) {
        return Ok((None, rest));
    }
    let (adapter, rest) = small(bytes)?;
    Ok((Some(AdapterNo(adapter)), rest))
}

/// Bytes, two digits each, up to the end of an item.
#[tactic(auto, using(crate::proofs::Fronts::front_more), unfolding(crate::specs::Codes::read_hex))]
fn hex(alloc: Global, bytes: &[u8]) -> Result<(Bytes, &[u8]), LineRefusal>
    ensures { Gives (λ x. (x.0, x.1.now)) result (read_hex bytes.now) }
{
    let mut octets = Bytes::new(alloc);
    let mut rest = bytes;
    while let Some((high, more)) = rest.split_first() {
        if is_item_end(*high) {
            return Ok((octets, rest));
        }
        let Some((low, after)) = more.split_first() else {
            return Err(LineRefusal::NoEntry);
        };
        let Some(octet) = pair_value(*high, *low) else {
            return Err(LineRefusal::NoEntry);
        };
        octets.push(octet)?;
        rest = after;
    }
    Ok((octets, rest))
}

/// A byte string, `-` for none.
pub fn byte_string(alloc: Global, bytes: &[u8]) -> Result<(Bytes, &[u8]), LineRefusal>
    ensures { Gives (λ x. (x.0, x.1.now)) result (byte_string.read bytes.now) }
{
    match bytes {
        [b'-', rest @ ..] => Ok((Bytes::new(alloc), rest)),
        [first, ..] if !is_item_end(*first) => hex(alloc, bytes),
        _ => Err(LineRefusal::NoEntry),
    }
}

/// The words behind the first, each behind a comma.
#[tactic(auto, unfolding(crate::specs::Codes::read_more))]
fn more_words<'a>(words: &mut Words, bytes: &'a [u8]) -> Result<&'a [u8], LineRefusal>
    ensures { Gives (λ rest. (words.new, rest.now)) result (with_front (words.old) (read_more word (length bytes.now) bytes.now)) }
{
    let mut rest = bytes;
    for _ in 0..bytes.len() {
        let Some(after) = past(b',', rest) else {
            return Ok(rest);
        };
        let (item, next) = word(after)?;
        words.push(item)?;
        rest = next;
    }
    Ok(rest)
}

/// A list of words, `-` for none.
pub fn words(alloc: Global, bytes: &[u8]) -> Result<(Words, &[u8]), LineRefusal>
    ensures { Gives (λ x. (x.0, x.1.now)) result ((listed word).read bytes.now) }
{
    let mut words = Words::new(alloc);
    if bytes.is_empty() {
        return Err(LineRefusal::NoEntry);
    }
    if let Some(rest) = past(b'-', bytes) {
        return Ok((words, rest));
    }
    let (item, rest) = word(bytes)?;
    words.push(item)?;
    let rest = more_words(&mut words, rest)?;
    Ok((words, rest))
}

/// The holders behind the first, each behind a comma.
#[tactic(auto, unfolding(crate::specs::Codes::read_more))]
fn more_holders<'a>(holders: &mut Holders, bytes: &'a [u8]) -> Result<&'a [u8], LineRefusal>
    ensures { Gives (λ rest. (map (λ h. h.0) holders.new, rest.now)) result (with_front (map (λ h. h.0) holders.old) (read_more small (length bytes.now) bytes.now)) }
{
    let mut rest = bytes;
    for _ in 0..bytes.len() {
        let Some(after) = past(b',', rest) else {
            return Ok(rest);
        };
        let (item, next) = small(after)?;
        holders.push(BindingNo(item))?;
        rest = next;
    }
    Ok(rest)
}

/// A list of holders, `-` for none.
pub fn holders(alloc: Global, bytes: &[u8]) -> Result<(Holders, &[u8]), LineRefusal>
    ensures { Gives (λ x. (map (λ h. h.0) x.0, x.1.now)) result ((listed small).read bytes.now) }
{
    let mut holders = Holders::new(alloc);
    if bytes.is_empty() {
        return Err(LineRefusal::NoEntry);
    }
    if let Some(rest) = past(b'-', bytes) {
        return Ok((holders, rest));
    }
    let (item, rest) = small(bytes)?;
    holders.push(BindingNo(item))?;
    let rest = more_holders(&mut holders, rest)?;
    Ok((holders, rest))
}

/// An address, a colon and bytes.
fn write(alloc: Global, bytes: &[u8]) -> Result<(Write, &[u8]), LineRefusal>
    ensures { Gives (λ x. (write_of x.0, x.1.now)) result (write.read bytes.now) }
{
    let (at, rest) = word(bytes)?;
    let (octets, rest) = byte_string(alloc, behind(b':', rest)?)?;
    Ok((
        Write {
            at: Addr(at),
            bytes: octets,
        },
        rest,
    ))
}

/// The writes behind the first, each behind a comma.
#[tactic(auto, unfolding(crate::specs::Codes::read_more))]
fn more_writes<'a>(
    alloc: Global,
    writes: &mut Writes,
    bytes: &'a [u8],
) -> Result<&'a [u8], LineRefusal>
    ensures { Gives (λ rest. (map write_of writes.new, rest.now)) result (with_front (map write_of writes.old) (read_more write (length bytes.now) bytes.now)) }
{
    let mut rest = bytes;
    for _ in 0..bytes.len() {
        let Some(after) = past(b',', rest) else {
            return Ok(rest);
        };
        let (item, next) = write(alloc, after)?;
        writes.push(item)?;
        rest = next;
    }
    Ok(rest)
}

/// A list of writes, `-` for none.
pub fn writes(alloc: Global, bytes: &[u8]) -> Result<(Writes, &[u8]), LineRefusal>
    ensures { Gives (λ x. (map write_of x.0, x.1.now)) result ((listed write).read bytes.now) }
{
    let mut writes = Writes::new(alloc);
    if bytes.is_empty() {
        return Err(LineRefusal::NoEntry);
    }
    if let Some(rest) = past(b'-', bytes) {
        return Ok((writes, rest));
    }
    let (item, rest) = write(alloc, bytes)?;
    writes.push(item)?;
    let rest = more_writes(alloc, &mut writes, rest)?;
    Ok((writes, rest))
}

/// A question: `query`, an OID and a length, or `set`, an OID and bytes.
pub fn question(alloc: Global, bytes: &[u8]) -> Result<(Question, &[u8]), LineRefusal>
    ensures { Gives (λ x. (question_of x.0, x.1.now)) result (question.read bytes.now) }
{
    let (front, rest) = name(bytes);
    if front == b"query".as_slice() {
        let (oid, rest) = word(blank(rest)?)?;
        let (length, rest) = medium(blank(rest)?)?;
        return Ok((Question::Query { oid, length }, rest));
    }
    if front == b"set".as_slice() {
        let (oid, rest) = word(blank(rest)?)?;
        let (octets, rest) = byte_string(alloc, blank(rest)?)?;
        return Ok((Question::Set { oid, bytes: octets }, rest));
    }
    Err(LineRefusal::NoEntry)
}

/// The rule behind `breach`.
fn breach_cause(bytes: &[u8]) -> Result<(Cause, &[u8]), LineRefusal>
    ensures { Gives (λ x. (cause_of x.0, x.1.now)) result (read_caused cause_kinds.Breach bytes.now) }
{
    let (breach, rest) = rule(blank(bytes)?)?;
    Ok((Cause::Breach(breach), rest))
}

/// Why an adapter was stopped.
pub fn cause(bytes: &[u8]) -> Result<(Cause, &[u8]), LineRefusal>
    ensures { Gives (λ x. (cause_of x.0, x.1.now)) result (cause.read bytes.now) }
{
    let (front, rest) = name(bytes);
    match find_cause(front) {
        Some(CauseKind::Breach) => breach_cause(rest),
        Some(CauseKind::Budget) => Ok((Cause::Budget, rest)),
        Some(CauseKind::Memory) => Ok((Cause::Memory, rest)),
        None => Err(LineRefusal::NoEntry),
    }
}

/// The number behind `frames`.
fn frames_what(bytes: &[u8]) -> Result<(Condition, &[u8]), LineRefusal>
    ensures { Gives (λ x. (what_of x.0, x.1.now)) result (read_awaited what_kinds.Frames bytes.now) }
{
    let (count, rest) = large(blank(bytes)?)?;
    Ok((Condition::Frames(count), rest))
}

/// What is awaited.
pub fn what(bytes: &[u8]) -> Result<(Condition, &[u8]), LineRefusal>
    ensures { Gives (λ x. (what_of x.0, x.1.now)) result (what.read bytes.now) }
{
    let (front, rest) = name(bytes);
    match find_what(front) {
        Some(ConditionKind::Up) => Ok((Condition::Up, rest)),
        Some(ConditionKind::Sent) => Ok((Condition::Sent, rest)),
        Some(ConditionKind::Replies) => Ok((Condition::Replies, rest)),
        Some(ConditionKind::Frames) => frames_what(rest),
        Some(ConditionKind::Room) => Ok((Condition::Room, rest)),
        Some(ConditionKind::All) => Ok((Condition::All, rest)),
        None => Err(LineRefusal::NoEntry),
    }
}
