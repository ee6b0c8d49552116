//! Instructions of source as operations, and their numbers.

ghost use Rattle.std.specs.Prelude.{◌≡◌};
ghost use Rattle.std.specs.Option.{option_map};
ghost use Rattle.asm_lines.specs.Values.{value_seen};
ghost use Rattle.asm_lines.specs.Arguments.{argument_seen};
ghost use Rattle.asm_lines.specs.Statements.{statement_seen};
ghost use Rattle.line_bytes.specs.Numbers.{numbered_seen, given_of, value_in, offset_in, is_value, is_memory, at_most_one, first_of, is_single, parted, numbered, number_of, number_or_0, term_of};

use crate::table::Table;
use asm_encode::{Given, Operation, Term};
use asm_lines::{Argument, Statement, Value};

/// An operation, and its numbers as they are written: a value, and the offset of memory.
#[derive(Clone, Copy)]
pub struct Numbered<'a> {
    pub operation: Operation,
    pub value: Option<Value<'a>>,
    pub offset: Option<Value<'a>>,
}

fn given_of(argument: Argument<'_>) -> Given
    ensures { result ≡ given_of (argument_seen argument.entry) }
{
    match argument {
        Argument::Absent => Given::Absent,
        Argument::Register(register) => Given::Register(register),
        Argument::Value(_) => Given::Value,
        Argument::Memory(width, place) => Given::Memory {
            width,
            base: place.base,
            index: place.index,
        },
    }
}

fn value_in<'a>(argument: Argument<'a>) -> Option<Value<'a>>
    ensures { option_map value_seen result ≡ value_in (argument_seen argument.entry) }
{
    match argument {
        Argument::Value(value) => Some(value),
        _ => None,
    }
}

fn offset_in<'a>(argument: Argument<'a>) -> Option<Value<'a>>
    ensures { option_map value_seen result ≡ offset_in (argument_seen argument.entry) }
{
    match argument {
        Argument::Memory(_, place) => place.offset,
        _ => None,
    }
}

fn is_value(argument: Argument<'_>) -> bool
    ensures { result ≡ is_value (argument_seen argument.entry) }
{
    matches!(argument, Argument::Value(_))
}

fn is_memory(argument: Argument<'_>) -> bool
    ensures { result ≡ is_memory (argument_seen argument.entry) }
{
    matches!(argument, Argument::Memory(_, _))
}

fn at_most_one(first: bool, second: bool, third: bool) -> bool
    ensures { result ≡ at_most_one first second third }
{
    !(first && second) && (!(first && third) && !(second && third))
}

fn first_of<'a>(first: Option<Value<'a>>, other: Option<Value<'a>>) -> Option<Value<'a>>
    ensures { option_map value_seen result ≡ first_of (option_map value_seen first.entry) (option_map value_seen other.entry) }
{
    match first {
        Some(value) => Some(value),
        None => other,
    }
}

/// Whether at most one operand is a value and at most one is in memory.
#[tactic(auto, unfolding(crate::specs::Numbers::is_single))]
fn is_single(statement: &Statement<'_>) -> bool
    ensures { result ≡ is_single (statement_seen statement.now) }
{
    let operands = statement.operands;
    let values = at_most_one(
        is_value(operands.first),
        is_value(operands.second),
        is_value(operands.third),
    );
    let places = at_most_one(
        is_memory(operands.first),
        is_memory(operands.second),
        is_memory(operands.third),
    );
    values && places
}

#[tactic(auto, unfolding(crate::specs::Numbers::parted))]
fn parted<'a>(statement: &Statement<'a>) -> Numbered<'a>
    ensures { numbered_seen result ≡ parted (statement_seen statement.now) }
{
    let operands = statement.operands;
    let behind = first_of(value_in(operands.second), value_in(operands.third));
    let beyond = first_of(offset_in(operands.second), offset_in(operands.third));
    Numbered {
        operation: Operation {
            prefix: statement.prefix,
            mnemonic: statement.mnemonic,
            first: given_of(operands.first),
            second: given_of(operands.second),
            third: given_of(operands.third),
        },
        value: first_of(value_in(operands.first), behind),
        offset: first_of(offset_in(operands.first), beyond),
    }
}

/// An instruction as an operation with numbers: none where it has two values, or two operands in
/// memory.
#[tactic(auto, unfolding(crate::specs::Numbers::numbered))]
pub fn with_numbers<'a>(statement: &Statement<'a>) -> Option<Numbered<'a>>
    ensures { option_map numbered_seen result ≡ numbered (statement_seen statement.now) }
{
    if is_single(statement) {
        Some(parted(statement))
    } else {
        None
    }
}

/// The number that a value is: none where it names a label that there is not.
pub fn number_of(labels: &Table, value: Value<'_>) -> Option<u64>
    ensures { result ≡ number_of labels.now (value_seen value.entry) }
{
    match value {
        Value::Number(number) => Some(number),
        Value::Address(name) => match labels.find(name) {
            Some((_, address)) => Some(u64::from(address)),
            None => None,
        },
    }
}

/// The number that a value is, 0 where it is absent.
pub fn number_or_0(labels: &Table, value: Option<Value<'_>>) -> Option<u64>
    ensures { result ≡ number_or_0 labels.now (option_map value_seen value.entry) }
{
    match value {
        Some(value) => number_of(labels, value),
        None => Some(0),
    }
}

/// What is known of a number before labels are.
pub fn term_of(value: Option<Value<'_>>) -> Term
    ensures { result ≡ term_of (option_map value_seen value.entry) }
{
    match value {
        None => Term::Known(0),
        Some(Value::Number(number)) => Term::Known(number),
        Some(Value::Address(_)) => Term::Open,
    }
}
