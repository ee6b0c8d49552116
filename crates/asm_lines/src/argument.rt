//! Operands in source.

ghost use Rattle.std.specs.Prelude.{◌≡◌};
ghost use Rattle.std.specs.Option.{option_map};
ghost use Rattle.nd_base.specs.Words.{words};
ghost use Rattle.asm_lines.specs.Arguments.{address_register, digit_scale, scale_of, index_of, part_of, part_seen, place_seen, with_part, last_part, more_parts, place_of, bracketed, size_of, argument_seen, plain, sized, argument_of};

use crate::parts::cut;
use crate::register::{Register, register_of};
use crate::value::{Value, value_of};
use nd_base::words::next_word;

/// An index register and what it is multiplied by.
#[derive(Clone, Copy)]
pub struct Index {
    pub register: u8,
    pub scale: u8,
}

/// What stands in brackets: the parts of an address, of which each may be absent.
#[derive(Clone, Copy)]
pub struct Place<'a> {
    pub base: Option<u8>,
    pub index: Option<Index>,
    pub offset: Option<Value<'a>>,
}

/// A part of an address.
#[derive(Clone, Copy)]
pub enum Part<'a> {
    Base(u8),
    Index(Index),
    Offset(Value<'a>),
}

/// An operand.
#[derive(Clone, Copy)]
pub enum Argument<'a> {
    Absent,
    Register(Register),
    Value(Value<'a>),
    /// Memory of so many bytes.
    Memory(u8, Place<'a>),
}

/// The number of a register of four bytes.
#[tactic(auto, unfolding(crate::specs::Arguments::address_register))]
fn address_register(word: &[u8]) -> Option<u8>
    ensures { result ≡ address_register word.now }
{
    match register_of(word) {
        Some(register) if register.width == 4 => Some(register.number),
        _ => None,
    }
}

fn digit_scale(byte: u8) -> Option<u8>
    ensures { result ≡ digit_scale byte }
{
    match byte {
        b'1' => Some(1),
        b'2' => Some(2),
        b'4' => Some(4),
        b'8' => Some(8),
        _ => None,
    }
}

fn scale_of(word: &[u8]) -> Option<u8>
    ensures { result ≡ scale_of word.now }
{
    match word {
        [byte] => digit_scale(*byte),
        _ => None,
    }
}

/// A register, `*` and a scale.
#[tactic(auto, unfolding(crate::specs::Arguments::index_of))]
fn index_of(word: &[u8]) -> Option<Index>
    ensures { result ≡ index_of word.now }
{
    let (name, behind) = cut(b'*', word);
    let register = address_register(name)?;
    let scale = scale_of(behind?)?;
    Some(Index { register, scale })
}

/// A part of an address.
#[tactic(auto, unfolding(crate::specs::Arguments::part_of))]
fn part_of(word: &[u8]) -> Option<Part<'_>>
    ensures { option_map part_seen result ≡ part_of word.now }
{
    if let Some(register) = address_register(word) {
        return Some(Part::Base(register));
    }
    if let Some(index) = index_of(word) {
        return Some(Part::Index(index));
    }
    match value_of(word) {
        Some(value) => Some(Part::Offset(value)),
        None => None,
    }
}

/// An address with a part more, where that stands in its order.
#[tactic(auto, unfolding(crate::specs::Arguments::with_part))]
fn with_part<'a>(place: Place<'a>, part: Part<'a>) -> Option<Place<'a>>
    ensures { option_map place_seen result ≡ with_part (place_seen place.entry) (part_seen part.entry) }
{
    if place.offset.is_some() {
        return None;
    }
    match part {
        Part::Base(_) if place.base.is_some() || place.index.is_some() => None,
        Part::Base(register) => Some(Place {
            base: Some(register),
            ..place
        }),
        Part::Index(_) if place.index.is_some() => None,
        Part::Index(index) => Some(Place {
            index: Some(index),
            ..place
        }),
        Part::Offset(value) => Some(Place {
            offset: Some(value),
            ..place
        }),
    }
}

const EMPTY: Place<'static> = Place {
    base: None,
    index: None,
    offset: None,
};

/// An address with one part more, which is the last.
#[tactic(auto, unfolding(crate::specs::Arguments::last_part))]
fn last_part<'a>(place: Place<'a>, word: &'a [u8]) -> Option<Place<'a>>
    ensures { option_map place_seen result ≡ last_part (place_seen place.entry) word.now }
{
    with_part(place, part_of(word)?)
}

/// An address with one or two parts more.
#[tactic(auto, unfolding(crate::specs::Arguments::more_parts))]
fn more_parts<'a>(place: Place<'a>, text: &'a [u8]) -> Option<Place<'a>>
    ensures { option_map place_seen result ≡ more_parts (place_seen place.entry) text.now }
{
    let (word, behind) = cut(b'+', text);
    let place = last_part(place, word)?;
    match behind {
        Some(word) => last_part(place, word),
        None => Some(place),
    }
}

/// The address that one to three parts between `+` name.
#[tactic(auto, unfolding(crate::specs::Arguments::place_of))]
fn place_of(text: &[u8]) -> Option<Place<'_>>
    ensures { option_map place_seen result ≡ place_of text.now }
{
    let (word, behind) = cut(b'+', text);
    let place = last_part(EMPTY, word)?;
    match behind {
        Some(text) => more_parts(place, text),
        None => Some(place),
    }
}

/// What stands between brackets.
#[tactic(auto, unfolding(crate::specs::Arguments::bracketed))]
fn bracketed(word: &[u8]) -> Option<&[u8]>
    ensures { option_map (λ text. text.now) result ≡ bracketed word.now }
{
    let (first, rest) = word.split_first()?;
    if *first != b'[' {
        return None;
    }
    let (text, behind) = cut(b']', rest);
    match behind {
        Some([]) => Some(text),
        _ => None,
    }
}

/// How many bytes a word says that an operand in memory has.
fn size_of(word: &[u8]) -> Option<u8>
    ensures { result ≡ size_of word.now }
{
    if word == b"byte".as_slice() {
        Some(1)
    } else if word == b"word".as_slice() {
        Some(2)
    } else if word == b"dword".as_slice() {
        Some(4)
    } else {
        None
    }
}

/// An operand of one word: a register or a value.
#[tactic(auto, unfolding(crate::specs::Arguments::plain))]
fn plain(word: &[u8]) -> Option<Argument<'_>>
    ensures { option_map argument_seen result ≡ plain word.now }
{
    if let Some(register) = register_of(word) {
        return Some(Argument::Register(register));
    }
    match value_of(word) {
        Some(value) => Some(Argument::Value(value)),
        None => None,
    }
}

/// An operand of two words: a size and an address in brackets.
#[tactic(auto, unfolding(crate::specs::Arguments::sized))]
fn sized<'a>(size: &[u8], word: &'a [u8]) -> Option<Argument<'a>>
    ensures { option_map argument_seen result ≡ sized size.now word.now }
{
    let width = size_of(size)?;
    let place = place_of(bracketed(word)?)?;
    Some(Argument::Memory(width, place))
}

/// An operand.
#[tactic(auto, unfolding(crate::specs::Arguments::argument_of))]
pub fn argument_of(text: &[u8]) -> Option<Argument<'_>>
    ensures { option_map argument_seen result ≡ argument_of (words text.now) }
{
    let (first, rest) = next_word(text)?;
    let Some((second, behind)) = next_word(rest) else {
        return plain(first);
    };
    if next_word(behind).is_some() {
        return None;
    }
    sized(first, second)
}
