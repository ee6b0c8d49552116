//! The characters of a line: quotes, blanks, and what separators outside quotes part.

ghost use Rattle.std.specs.Prelude.{◌≡◌, ℕ, false, ◌+◌, ◌≤◌, length, IfOk, MatchOption};
ghost use Rattle.inf_text.specs.Quotes.{is_blank, turned, is_open, is_mark, front_len, trimmed_start, trimmed_end, stays, resolved_behind, value, cut, key_cut, values};

use nd_base::{OutOfMemory, Wide};
use std::alloc::Global;

/// The quotation mark.
const QUOTE: u16 = 34;

/// The comma, which parts values.
const COMMA: u16 = 44;

/// The sign behind a key.
const EQUALS: u16 = 61;

fn is_blank(c: u16) -> bool
    ensures { result ≡ is_blank c }
{
    c == 32 || c == 9
}

/// Whether quotes are open behind a character.
fn turned(inside: bool, c: u16) -> bool
    ensures { result ≡ turned inside c }
{
    if c == QUOTE { !inside } else { inside }
}

/// Whether quotes are open behind the characters.
pub fn is_open(mut inside: bool, chars: &[u16]) -> bool
    ensures { result ≡ is_open inside chars.now }
{
    for c in chars {
        inside = turned(inside, *c);
    }
    inside
}

/// Whether a character is this mark outside quotes.
fn is_mark(mark: u16, inside: bool, c: u16) -> bool
    ensures { result ≡ is_mark mark inside c }
{
    !inside && c == mark
}

/// How many characters stand in front of the first that is this mark outside quotes: all, where
/// none is.
#[tactic(auto, using(crate::proofs::Loops::front_here, crate::proofs::Loops::front_on, crate::proofs::Loops::front_end))]
pub fn front_len(mark: u16, mut inside: bool, chars: &[u16]) -> usize
    ensures value { result ≡ front_len mark inside chars.now }
    ensures within { result ≤ length chars.now }
{
    for (i, c) in chars.iter().enumerate() {
        if is_mark(mark, inside, *c) {
            return i;
        }
        inside = turned(inside, *c);
    }
    chars.len()
}

/// The characters without the blanks in front.
#[tactic(auto, unfolding(crate::specs::Quotes::trimmed_start))]
pub fn trimmed_start(mut chars: &[u16]) -> &[u16]
    ensures { result.now ≡ trimmed_start chars.now }
{
    while let [first, rest @ ..] = chars
        && is_blank(*first)
    {
        chars = rest;
    }
    chars
}

/// The characters without the blanks at the end.
#[tactic(auto, using(crate::proofs::Loops::end_on, crate::proofs::Loops::end_here, crate::proofs::Loops::end_end))]
pub fn trimmed_end(chars: &[u16]) -> &[u16]
    ensures { result.now ≡ trimmed_end chars.now }
{
    let mut end = chars.len();
    while end > 0 && is_blank(chars[end - 1]) {
        end -= 1;
    }
    &chars[..end]
}

/// Whether a character stays where quotes are resolved, behind the one before.
fn stays(before: u16, inside: bool, c: u16) -> bool
    ensures { result ≡ stays before inside c }
{
    c != QUOTE || (!inside && before == QUOTE)
}

/// The characters with their quotes resolved.
fn resolved(alloc: Global, chars: &[u16]) -> Result<Wide, OutOfMemory>
    ensures { IfOk result (λ w. w ≡ resolved_behind 0 false chars.now) }
{
    let mut text = Wide::new(alloc);
    let mut inside = false;
    let mut before = 0;
    for c in chars {
        if stays(before, inside, *c) {
            text.push(*c)?;
        }
        inside = turned(inside, *c);
        before = *c;
    }
    Ok(text)
}

/// A key, a value or a name, without the blanks at its ends and with its quotes resolved.
pub fn value(alloc: Global, chars: &[u16]) -> Result<Wide, OutOfMemory>
    ensures { IfOk result (λ w. w ≡ value chars.now) }
{
    resolved(alloc, trimmed_end(trimmed_start(chars)))
}

/// What stands in front of the first character that is this mark outside quotes, and behind it.
pub fn cut(mark: u16, chars: &[u16]) -> Option<(&[u16], &[u16])>
    ensures { MatchOption result (cut mark chars.now ≡ None) (λ x. cut mark chars.now ≡ Some (x.0.now, x.1.now)) }
{
    let end = front_len(mark, false, chars);
    if end < chars.len() {
        Some((&chars[..end], &chars[end + 1..]))
    } else {
        None
    }
}

/// The key and what stands behind its `=`, where one stands outside quotes in front of the first
/// comma outside quotes.
pub fn cut_key(chars: &[u16]) -> Option<(&[u16], &[u16])>
    ensures { MatchOption result (key_cut chars.now ≡ None) (λ x. key_cut chars.now ≡ Some (x.0.now, x.1.now)) }
{
    let end = front_len(EQUALS, false, chars);
    if end < front_len(COMMA, false, chars) {
        Some((&chars[..end], &chars[end + 1..]))
    } else {
        None
    }
}

/// The values that commas outside quotes part.
pub fn values(alloc: Global, chars: &[u16]) -> Result<Vec<Wide>, OutOfMemory>
    ensures { IfOk result (λ v. v.items ≡ values chars.now) }
{
    let mut found = Vec::new(alloc);
    let mut rest = chars;
    while let Some((part, behind)) = cut(COMMA, rest) {
        found.push(value(alloc, part)?)?;
        rest = behind;
    }
    found.push(value(alloc, rest)?)?;
    Ok(found)
}
