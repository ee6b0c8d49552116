//! The lines of a file without their comments, joined where one goes on with the next.

ghost use Rattle.std.specs.Prelude.{◌≡◌, ◌∷◌, [], false, ℕ, ◌+◌, ◌<◌, length, IfOk};
ghost use Rattle.std.specs.Str.Lines.{lines, strip_carriage_return};
ghost use Rattle.inf_text.specs.Joining.{said, goes_on, kept, joined};

use crate::parts::part_at;
use crate::quotes::{front_len, is_open, trimmed_end};
use nd_base::{OutOfMemory, Wide};
use std::alloc::Global;

/// The semicolon, which begins a comment.
const SEMICOLON: u16 = 59;

/// What ends a line.
const LINE_FEED: u16 = 10;

/// The backslash.
const BACKSLASH: u16 = 92;

/// A line with those that it goes on with: the number of the first, and the characters.
#[derive(Debug, Drop)]
pub struct Joined {
    pub number: u32,
    pub text: Wide,
}

/// A line without the carriage return at its end.
fn without_return(line: &[u16]) -> &[u16]
    ensures { result.now ≡ strip_carriage_return line.now }
{
    if !line.is_empty() && line[line.len() - 1] == 13 {
        return &line[..line.len() - 1];
    }
    line
}

/// The first line, and what is behind it.
fn next_line(text: &[u16]) -> (&[u16], &[u16])
    requires { 0 < length text.now }
    ensures lines { lines text.now ≡ result.0.now ∷ lines result.1.now }
    ensures shorter { length result.1.now < length text.now }
{
    match part_at(LINE_FEED, text) {
        Some((line, behind)) => (without_return(line), behind),
        None => (text, &[]),
    }
}

/// What a line says in front of its comment.
fn said(inside: bool, line: &[u16]) -> &[u16]
    ensures { result.now ≡ said inside line.now }
{
    &line[..front_len(SEMICOLON, inside, line)]
}

/// What is kept of a line's characters, and whether the next line goes on with them.
fn kept(chars: &[u16]) -> (&[u16], bool)
    ensures kept { result.0.now ≡ kept chars.now }
    ensures goes_on { result.1 ≡ goes_on chars.now }
{
    let trimmed = trimmed_end(chars);
    if !trimmed.is_empty() && trimmed[trimmed.len() - 1] == BACKSLASH {
        return (&trimmed[..trimmed.len() - 1], true);
    }
    (chars, false)
}

/// The joined lines of a text, and behind them an empty one.
pub fn joined_lines(alloc: Global, text: &[u16]) -> Result<Vec<Joined>, OutOfMemory>
    requires { length text.now < 1048577 }
    ensures { IfOk result (λ v. v.items ≡ joined 1 1 [] (lines text.now)) }
{
    let mut found = Vec::new(alloc);
    let mut first = 1;
    let mut number = 1;
    let mut front = Wide::new(alloc);
    let mut inside = false;
    let mut rest = text;
    while !rest.is_empty() {
        let (line, behind) = next_line(rest);
        let said = said(inside, line);
        let (kept, goes_on) = kept(said);
        front.extend_from_slice(kept)?;
        inside = is_open(inside, kept);
        number += 1;
        rest = behind;
        if !goes_on {
            found.push(Joined {
                number: first,
                text: front,
            })?;
            first = number;
            front = Wide::new(alloc);
            inside = false;
        }
    }
    found.push(Joined {
        number: first,
        text: front,
    })?;
    Ok(found)
}
