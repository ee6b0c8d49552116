//! The lines of a layout file.

ghost use Rattle.std.specs.Prelude.{◌≡◌, ◌<◌, IfSome};
ghost use Rattle.nd_base.specs.LayoutText.{place_of, offset_line, words_content, line_content, IsPlaced};
ghost use Rattle.nd_base.specs.Words.{words};

use crate::layout_field::{FIELDS, row_at};
use crate::words::{decimal, next_word};

/// What a line says.
#[derive(Clone, Copy, Debug, PartialEq, Eq)]
pub enum Content {
    /// Nothing.
    Skipped,
    /// It is no line of a layout file.
    Bad,
    /// The offset of a field that there is not.
    Unknown,
    /// The offset of the field at a place in the order of the fields.
    Offset(usize, u32),
}

/// The place of a name in the order of the fields.
fn place_of(name: &[u8]) -> Option<usize>
    ensures value { result ≡ place_of name.now }
    ensures small { IfSome result (λ place. place < 31) }
{
    for place in 0..FIELDS {
        if row_at(place).name == name {
            return Some(place);
        }
    }
    None
}

/// What the three words of a line say.
#[tactic(auto, unfolding(crate::specs::Layout::seen))]
fn offset_line(name: &[u8], equals: &[u8], number: &[u8]) -> Content
    ensures value { result ≡ offset_line name.now equals.now number.now }
    ensures small { IsPlaced result }
{
    if equals != b"=".as_slice() {
        return Content::Bad;
    }
    let Some(offset) = decimal(number) else {
        return Content::Bad;
    };
    let Some(place) = place_of(name) else {
        return Content::Unknown;
    };
    let row = row_at(place);
    if offset.saturating_add(u64::from(row.width)) > u64::from(row.object.limit()) {
        return Content::Bad;
    }
    Content::Offset(place, offset as u32)
}

/// What the words of a line say.
fn words_content(line: &[u8]) -> Content
    ensures value { result ≡ words_content (words line.now) }
    ensures small { IsPlaced result }
{
    let Some((name, rest)) = next_word(line) else {
        return Content::Skipped;
    };
    let Some((equals, rest)) = next_word(rest) else {
        return Content::Bad;
    };
    let Some((number, rest)) = next_word(rest) else {
        return Content::Bad;
    };
    if next_word(rest).is_some() {
        return Content::Bad;
    }
    offset_line(name, equals, number)
}

/// What a line says.
#[tactic(auto, unfolding(crate::specs::LayoutText::line_content))]
pub fn line_content(line: &[u8]) -> Content
    ensures value { result ≡ line_content line.now }
    ensures small { IsPlaced result }
{
    if !line.is_empty() && line[0] == b'#' {
        return Content::Skipped;
    }
    words_content(line)
}
