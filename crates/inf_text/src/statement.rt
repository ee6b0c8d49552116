//! What a line says.

ghost use Rattle.std.specs.Prelude.{◌≡◌, IfOk};
ghost use Rattle.nd_base.specs.Results.{Gives};
ghost use Rattle.inf_text.specs.Quotes.{cut, key_cut};
ghost use Rattle.inf_text.specs.Reading.{header, entry, statement_of};

use crate::joining::Joined;
use crate::line::Line;
use crate::name::Name;
use crate::quotes::{cut, cut_key, is_open, trimmed_start, value, values};
use crate::refusal::InfRefusal;
use nd_base::OutOfMemory;
use std::alloc::Global;

/// The bracket that begins a header.
const OPENING: u16 = 91;

/// The bracket that ends the name of a header.
const CLOSING: u16 = 93;

/// What a line says: nothing, that a section begins or goes on, or a line of that section.
#[derive(Drop)]
pub enum Statement {
    Nothing,
    Header(Name),
    Entry(Line),
}

/// The line of characters that are no header.
fn entry(alloc: Global, number: u32, chars: &[u16]) -> Result<Line, OutOfMemory>
    ensures { IfOk result (λ l. l ≡ entry number chars.now (key_cut chars.now)) }
{
    match cut_key(chars) {
        Some((key, rest)) => {
            let key = Some(value(alloc, key)?);
            let values = values(alloc, rest)?;
            Ok(Line {
                number,
                key,
                values,
            })
        }
        None => {
            let values = values(alloc, chars)?;
            Ok(Line {
                number,
                key: None,
                values,
            })
        }
    }
}

/// A header without its first bracket.
fn header(alloc: Global, number: u32, chars: &[u16]) -> Result<Statement, InfRefusal>
    ensures { Gives InfRefusal.OutOfMemory (λ s. s) result (header number (cut 93 chars.now)) }
{
    let Some((name, _)) = cut(CLOSING, chars) else {
        return Err(InfRefusal::Line(number));
    };
    Ok(Statement::Header(Name::new(value(alloc, name)?)))
}

/// What a joined line says.
pub fn read_statement(alloc: Global, line: &Joined) -> Result<Statement, InfRefusal>
    ensures { Gives InfRefusal.OutOfMemory (λ s. s) result (statement_of line.now) }
{
    let chars = trimmed_start(line.text.as_slice());
    if chars.is_empty() {
        return Ok(Statement::Nothing);
    }
    if is_open(false, chars) {
        return Err(InfRefusal::Line(line.number));
    }
    if chars[0] == OPENING {
        return header(alloc, line.number, &chars[1..]);
    }
    Ok(Statement::Entry(entry(alloc, line.number, chars)?))
}
