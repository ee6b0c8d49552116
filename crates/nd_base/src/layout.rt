//! Where the library's objects have their fields.

ghost use Rattle.std.specs.Prelude.{◌≡◌, ◌+◌, ◌<◌, ◌≤◌, ℕ, length, not, slice_index, IfOk, IfErr, IfSome, MatchResult, List};
ghost use Rattle.std.specs.List.{position};
ghost use Rattle.std.specs.Str.Lines.{lines};
ghost use Rattle.nd_base.specs.Layout.{number, usual, limit, width_of, object_of, IsSound};
ghost use Rattle.nd_base.specs.declared.layout.LayoutRefusal.{LayoutRefusal};
ghost use Rattle.nd_base.specs.LayoutText.{IsPlaced};
ghost use Rattle.nd_base.specs.LayoutFile.{IsLayout, IsRefused, usual_text};
ghost use Rattle.nd_base.specs.LayoutReading.{complete, behind, behind_lines, same_object, share, shared_with, first_shared, overlap_of, nothing, reading};

use crate::layout_field::{FIELDS, Field, Object, row_at};
use crate::layout_text::{Content, line_content};
use crate::words::next_line;
use std::error::Error;
use std::fmt::{self, Display, Formatter, Write};
use std::marker::Model;

/// The longest layout file that is read, in bytes.
const LONGEST_TEXT: usize = 65_536;

/// Why a layout file is not read: the first fault. Lines are numbered from 1.
#[derive(Clone, Copy, Debug, PartialEq, Eq)]
pub enum LayoutRefusal {
    /// More than 65,536 bytes.
    TooLong,
    /// Not a name, `=` and a decimal number; or the number is not below 2^32, or the field would not
    /// lie in its object there.
    Line(u64),
    /// A name that no field has.
    UnknownName(u64),
    /// A name that a line before it has.
    Repeated(u64),
    /// The first field that no line names.
    Missing(Field),
    /// Two fields of one object share a byte: of all such pairs the one whose first field is
    /// earliest, and then its second.
    Overlap(Field, Field),
}

impl Display for LayoutRefusal {
    fn fmt<W: Write>(&self, f: &mut Formatter<W>) -> fmt::Result {
        write!(f, "the layout file is refused: {self:?}")
    }
}

impl Error for LayoutRefusal {}

/// Which fields have a line, and their offsets, in the order of the fields.
#[derive(Clone, Copy)]
pub struct Offsets {
    given: [bool; FIELDS],
    offsets: [u32; FIELDS],
}

/// Where the library's objects have their fields, seen as the offsets in the order of the fields.
#[derive(Debug, Drop)]
pub struct Layout {
    offsets: [u32; FIELDS],
}

impl Model for Layout {
    ghost use Rattle.std.specs.Prelude.{List, ℕ};
    ghost use Rattle.nd_base.specs.LayoutFile.{AreSound};

    ghost Value = { List ℕ };

    ghost view = { λ l. l.offsets };

    ghost invariant = { λ l. AreSound l.offsets };
}

fn is_same(a: Object, b: Object) -> bool
    ensures { result ≡ same_object a b }
{
    a == b
}

/// What is known behind a line of this number.
fn behind(number: u64, before: Offsets, line: Content) -> Result<Offsets, LayoutRefusal>
    requires { IsPlaced line }
    ensures { result ≡ behind number before line }
{
    match line {
        Content::Skipped => Ok(before),
        Content::Bad => Err(LayoutRefusal::Line(number)),
        Content::Unknown => Err(LayoutRefusal::UnknownName(number)),
        Content::Offset(place, offset) => {
            if before.given[place] {
                return Err(LayoutRefusal::Repeated(number));
            }
            let mut after = before;
            after.given[place] = true;
            after.offsets[place] = offset;
            Ok(after)
        }
    }
}

/// What is known behind all lines.
fn behind_lines(text: &[u8]) -> Result<Offsets, LayoutRefusal>
    requires { length text.now ≤ 65536 }
    ensures { result ≡ behind_lines 1 nothing (lines text.now) }
{
    let mut known = Offsets {
        given: [false; FIELDS],
        offsets: [0; FIELDS],
    };
    let mut number = 1;
    let mut rest = text;
    while !rest.is_empty() {
        let (line, after) = next_line(rest);
        let content = line_content(line);
        let next = behind(number, known, content)?;
        known = next;
        number += 1;
        rest = after;
    }
    Ok(known)
}

/// The first field that has no line.
fn first_missing(given: &[bool; FIELDS]) -> Option<usize>
    ensures { result ≡ position not given.now }
{
    given.iter().position(|given| !*given)
}

/// Whether the fields at two places share a byte.
#[tactic(auto, unfolding(crate::specs::Layout::seen))]
fn share(offsets: &[u32; FIELDS], first: usize, second: usize) -> bool
    requires first { first < 31 }
    requires second { second < 31 }
    ensures { result ≡ share offsets.now first second }
{
    let a = row_at(first);
    let b = row_at(second);
    let a_start = u64::from(offsets[first]);
    let b_start = u64::from(offsets[second]);
    is_same(a.object, b.object)
        && a_start < b_start + u64::from(b.width)
        && b_start < a_start + u64::from(a.width)
}

/// The first field behind one that shares a byte with it.
fn shared_with(offsets: &[u32; FIELDS], first: usize) -> Option<usize>
    requires { first < 31 }
    ensures value { result ≡ shared_with offsets.now first }
    ensures small { IfSome result (λ second. second < 31) }
{
    for second in first + 1..FIELDS {
        if share(offsets, first, second) {
            return Some(second);
        }
    }
    None
}

/// The first two fields that share a byte.
fn overlap(offsets: &[u32; FIELDS]) -> Option<LayoutRefusal>
    ensures { result ≡ overlap_of offsets.now (first_shared offsets.now) }
{
    for first in 0..FIELDS {
        match shared_with(offsets, first) {
            Some(second) => {
                return Some(LayoutRefusal::Overlap(row_at(first).field, row_at(second).field));
            }
            None => {}
        }
    }
    None
}

/// The offsets, where all are there and no two fields share a byte.
#[tactic(auto, unfolding(crate::specs::Layout::seen))]
fn complete(found: &Offsets) -> Result<[u32; FIELDS], LayoutRefusal>
    ensures { result ≡ complete found.now (position not found.now.given) }
{
    if let Some(place) = first_missing(&found.given) {
        return Err(LayoutRefusal::Missing(row_at(place).field));
    }
    match overlap(&found.offsets) {
        Some(fault) => Err(fault),
        None => Ok(found.offsets),
    }
}

/// The offsets that a layout file states.
#[tactic(auto, unfolding(crate::specs::LayoutReading::reading))]
fn offsets_of(text: &[u8]) -> Result<[u32; FIELDS], LayoutRefusal>
    ensures { result ≡ reading text.now }
{
    if text.len() > LONGEST_TEXT {
        return Err(LayoutRefusal::TooLong);
    }
    let found = behind_lines(text)?;
    complete(&found)
}

/// The usual offsets, in the order of the fields.
fn usual_offsets() -> [u32; FIELDS]
    ensures { result ≡ usual }
{
    let mut offsets = [0; FIELDS];
    for place in 0..FIELDS {
        offsets[place] = row_at(place).offset;
    }
    offsets
}

impl Layout {
    /// The usual offsets.
    pub fn usual() -> Layout
        ensures { result ≡ usual }
    {
        Layout {
            offsets: usual_offsets(),
        }
    }

    /// Where a field begins, in bytes from its object's start.
    pub fn offset(&self, field: Field) -> u32
        ensures value { result ≡ slice_index self.now (number field) }
        ensures inside { result + width_of field ≤ limit (object_of field) }
    {
        self.offsets[field.number()]
    }

    /// Each field ends inside its object, and of two fields of one object one ends before the other
    /// begins. This is a law: it does nothing.
    pub fn is_sound(&self)
        ensures { IsSound self.now }
    {
        let _offsets = self.offsets;
    }

    /// Reads a layout file: text of at most 65,536 bytes with one line `name = offset` for each
    /// field, in any order. Lines end with LF or CRLF; those of blanks alone, and those that begin
    /// with `#`, say nothing. An offset is a decimal number of bytes from the object's start.
    /// The error is the first fault: of the length, of the first bad line, the first field that no
    /// line names, the first two fields that share a byte.
    pub fn read(text: &[u8]) -> Result<Layout, LayoutRefusal>
        // What is read is what the text says.
        ensures found { IfOk result (λ l. IsLayout text.now l) }
        // What the text says so is read.
        ensures only { (offsets : List ℕ) → IsLayout text.now offsets → MatchResult result (λ l. l ≡ offsets) (λ _. ⊥) }
        // A refusal is that of the first fault.
        ensures refused { IfErr result (λ e. IsRefused text.now e) }
        // Where there is a fault, the refusal is its.
        ensures first { (e : LayoutRefusal) → IsRefused text.now e → MatchResult result (λ _. ⊥) (λ d. d ≡ e) }
    {
        let offsets = offsets_of(text)?;
        Ok(Layout { offsets })
    }
}

/// The usual offsets, written in lines `name = offset`, are a layout file of the usual offsets.
pub fn usual_is_a_layout()
    ensures { IsLayout usual_text usual }
{}
