//! The bytes of operations, with places for numbers that are not known yet.

ghost use Rattle.std.specs.Prelude.{ℕ, ◌≡◌, ◌≢◌, ◌≤◌, List, length, Some, IsSome, IfOk, IfErr};
ghost use Rattle.ia32_decode.specs.Decoding.{Spells};
ghost use Rattle.asm_encode.specs.Operations.{instruction_of};
ghost use Rattle.asm_encode.specs.Templates.{word_of, low_of, ends_behind, IsPlaced, IsOpenOffset, is_put_in, IsTemplate, IsZeroFault, IsFault, open_offset, behind_word, template_in, IsChosenTemplate, TemplateIsOne};

use crate::forms::{Form, instruction_of};
use crate::operation::{Operation, has_memory, low};
use ia32_decode::{Spelling, chosen_is_one, encode};
use ia32_fields::{wide_immediates, wide_offsets};

/// Why an operation is not spelled.
#[derive(Clone, Copy, Debug, PartialEq, Eq)]
pub enum Fault {
    /// Its operands are of no form of its mnemonic.
    NoForm,
    /// A value does not fit its field.
    Range,
}

/// A number of an operation.
#[derive(Clone, Copy)]
pub enum Term {
    Known(u64),
    /// An address that is put in later.
    Open,
}

/// The bytes of an operation, in which a value, an offset or both are put in later.
#[derive(Drop)]
pub enum Template {
    Fixed(Spelling),
    /// The last four bytes are the value.
    WithValue(Spelling),
    /// Four bytes in front of the last so many are the offset.
    WithOffset(Spelling, usize),
    /// The last eight bytes are the offset and the value.
    WithBoth(Spelling),
}

/// What stands for an open value: a number of this size has a field of four bytes.
const VALUE: u32 = 0x4433_2211;

/// What stands for an open offset, and what does where the value is that.
const OFFSET: u32 = 0x4030_2010;

const OTHER_OFFSET: u32 = 0x4333_2313;

/// The number that is spelled for a term, if it has four bytes.
fn word_of(term: Term, filler: u32) -> Option<u32>
    ensures { result ≡ word_of term filler }
{
    match term {
        Term::Known(number) => u32::try_from(number).ok(),
        Term::Open => Some(filler),
    }
}

fn low_of(term: Term, filler: u32) -> u32
    ensures { result ≡ low_of term filler }
{
    match term {
        Term::Known(number) => low(number),
        Term::Open => filler,
    }
}

/// Whether the four bytes of a number stand in front of the last so many bytes.
fn ends_behind(bytes: &[u8], word: u32, behind: usize) -> bool
    requires { behind ≤ 4 }
    ensures { result ≡ ends_behind bytes.now word behind }
{
    if behind + 4 > bytes.len() {
        return false;
    }
    let start = bytes.len() - (behind + 4);
    let own = word.to_le_bytes();
    &bytes[start..start + 4] == own.as_slice()
}

/// How many bytes stand behind those of the offset.
fn behind_offset(bytes: &[u8], word: u32) -> usize
    requires { IsOpenOffset word }
    ensures value { result ≡ behind_word bytes.now word }
    ensures found { (front back : List ℕ) (imm : ℕ) → IsPlaced bytes.now word imm front back → result ≡ length back }
{
    if ends_behind(bytes, word, 0) {
        0
    } else if ends_behind(bytes, word, 1) {
        1
    } else if ends_behind(bytes, word, 2) {
        2
    } else {
        4
    }
}

/// Why an operation without bytes has none, by 0 in place of its value.
fn zero_fault(operation: Operation, form: Form, offset: u32) -> Fault
    ensures { IsZeroFault operation form offset result }
{
    match encode(&instruction_of(operation, form, 0, offset)) {
        Some(_) => Fault::Range,
        None => Fault::NoForm,
    }
}

/// The number that stands for an open offset beside a value.
fn open_offset(value: u32) -> u32
    ensures value { result ≡ open_offset value }
    ensures known { IsOpenOffset result }
    ensures other { value ≢ result }
{
    if value == OFFSET {
        OTHER_OFFSET
    } else {
        OFFSET
    }
}

/// Whether the offset is put in later.
fn is_put_in(operation: Operation, offset: Term) -> bool
    ensures { result ≡ is_put_in operation offset }
{
    match offset {
        Term::Known(_) => false,
        Term::Open => has_memory(operation),
    }
}

/// The bytes of an operation with numbers, in which those of the open ones are put in later.
fn with_places(
    operation: Operation,
    form: Form,
    value: Term,
    offset: Term,
    bytes: Spelling,
    filler: u32,
) -> Template
    requires filler { IsOpenOffset filler }
    requires other { (n : ℕ) → word_of value VALUE ≡ Some n → n ≢ filler }
    requires spelled { (n m : ℕ) → word_of value VALUE ≡ Some n → word_of offset filler ≡ Some m → Spells bytes (instruction_of operation form n m) }
    requires value { IsSome (word_of value VALUE) }
    requires offset { IsSome (word_of offset filler) }
    ensures template { IsTemplate operation form value offset result }
    ensures shape { result ≡ template_in value (is_put_in operation offset) bytes filler }
{
    wide_immediates();
    wide_offsets();
    if is_put_in(operation, offset) {
        match value {
            Term::Open => Template::WithBoth(bytes),
            Term::Known(_) => {
                let behind = behind_offset(bytes.as_slice(), filler);
                Template::WithOffset(bytes, behind)
            }
        }
    } else {
        match value {
            Term::Open => Template::WithValue(bytes),
            Term::Known(_) => Template::Fixed(bytes),
        }
    }
}

/// The bytes of an operation of a form, for whatever addresses are put in for its open numbers.
pub fn template_of(
    operation: Operation,
    form: Form,
    value: Term,
    offset: Term,
) -> Result<Template, Fault>
    ensures ok { IfOk result (λ t. IsTemplate operation form value offset t) }
    ensures chosen { IfOk result (λ t. IsChosenTemplate operation form value offset t) }
    ensures err { IfErr result (λ fault. IsFault operation form value offset fault) }
{
    wide_immediates();
    wide_offsets();
    let Some(value_word) = word_of(value, VALUE) else {
        return Err(zero_fault(operation, form, low_of(offset, OFFSET)));
    };
    let filler = open_offset(value_word);
    let Some(offset_word) = word_of(offset, filler) else {
        return Err(zero_fault(operation, form, low_of(offset, filler)));
    };
    match encode(&instruction_of(operation, form, value_word, offset_word)) {
        Some(bytes) => Ok(with_places(operation, form, value, offset, bytes, filler)),
        None => Err(zero_fault(operation, form, low_of(offset, filler))),
    }
}

/// An operation has one template at most.
pub fn template_is_one()
    ensures { TemplateIsOne }
{
    chosen_is_one();
}
