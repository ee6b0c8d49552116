//! The bytes of a source where all stands a distance further.

ghost use Rattle.std.specs.Prelude.{Some, ◌≡◌, ◌≤◌, ◌<◌, ◌+◌, ◌-◌, ◌*◌, ◌^◌, length, IfOk, IfErr};
ghost use Rattle.std.specs.Str.Lines.{lines};
ghost use Rattle.asm_lines.specs.Arguments.{argument_seen};
ghost use Rattle.asm_lines.specs.Statements.{statement_seen};
ghost use Rattle.asm_lines.specs.Lines.{content_seen, line_content};
ghost use Rattle.line_bytes.specs.Made.{IsMadeIn};
ghost use Rattle.line_bytes.specs.Pieces.{Adds};
ghost use Rattle.line_bytes.specs.Putting.{AreWide};
ghost use Rattle.sys_forge.specs.Standing.{AreMade};
ghost use Rattle.sys_forge.specs.Moved.{leads_on, is_plain, leads, is_jump, IsMovedPiece, IsMovedLine, IsPutFurther};

use asm_lines::{Argument, Content, Mnemonic, Statement, line_content};
use line_bytes::{MOST, Made, Met, Refused, TEXT, Tables, put_content};
use nd_base::Bytes;
use nd_base::words::next_line;
use std::alloc::Global;

/// How far text stands from where it stands, to see which of its words hold addresses: each byte of an
/// address changes with it.
pub const DISTANCE: u32 = 0x0101_0101;

fn leads_on(mnemonic: Mnemonic) -> bool
    ensures { result ≡ leads_on mnemonic }
{
    matches!(mnemonic, Mnemonic::To(_))
}

fn is_plain(argument: Argument<'_>) -> bool
    ensures { result ≡ is_plain (argument_seen argument.entry) }
{
    matches!(argument, Argument::Value(_))
}

/// Whether an instruction jumps to a value.
fn leads(statement: &Statement<'_>) -> bool
    ensures { result ≡ leads (statement_seen statement.now) }
{
    leads_on(statement.mnemonic) && is_plain(statement.operands.first)
}

fn is_jump(content: &Content<'_>) -> bool
    ensures { result ≡ is_jump (content_seen content.now) }
{
    match content {
        Content::Instruction(statement) => leads(statement),
        _ => false,
    }
}

/// Puts what a line says behind others, a distance further: a jump leads as far as before.
fn put_moved(
    out: &mut Bytes,
    tables: &Tables,
    moved: &Tables,
    met: Met,
    content: &Content<'_>,
    made: &Option<Made>,
) -> Result<Met, Refused>
    requires made { IsMadeIn (Some (content_seen content.now)) made.now }
    requires wide { AreWide tables.now.labels × AreWide moved.now.labels }
    requires room { length out.old ≤ 0x3FF000 }
    requires labels { met.labels < 2 ^ 64 - 1 }
    requires imports { met.imports ≤ 0x3FF000 }
    ensures labels { IfOk result (λ next. next.labels ≤ met.labels + 1) }
    ensures ok { IfOk result (λ next. Adds out.old out.new (λ piece. IsMovedPiece tables.now moved.now met (0x80101000 + length out.old) (content_seen content.now) piece next)) }
{
    let at = TEXT + out.len() as u32;
    if is_jump(content) {
        put_content(out, tables, met, content, made, at)
    } else {
        put_content(out, moved, met, content, made, at + DISTANCE)
    }
}

/// Puts the bytes of a line behind others, a distance further.
fn put_moved_line(
    out: &mut Bytes,
    tables: &Tables,
    moved: &Tables,
    met: Met,
    line: &[u8],
    made: &Option<Made>,
) -> Result<Met, Refused>
    requires made { IsMadeIn (line_content line.now) made.now }
    requires wide { AreWide tables.now.labels × AreWide moved.now.labels }
    requires labels { met.labels < 2 ^ 64 - 1 }
    requires room { length out.old + 4 * met.imports ≤ 0x3FF000 }
    ensures labels { IfOk result (λ next. next.labels ≤ met.labels + 1) }
    ensures ok { IfOk result (λ next. Adds out.old out.new (λ piece. IsMovedLine tables.now moved.now met (0x80101000 + length out.old) line.now piece next)) }
    ensures room { IfOk result (λ next. length out.new + 4 * next.imports ≤ 0x3FF000) }
{
    let Some(content) = line_content(line) else {
        return Err(Refused::Line);
    };
    let next = put_moved(out, tables, moved, met, &content, made)?;
    if out.len() > MOST || out.len() + 4 * next.imports > MOST {
        return Err(Refused::Range);
    }
    Ok(next)
}

/// The bytes of the lines of a source, a distance further.
pub fn put_further(
    alloc: Global,
    tables: &Tables,
    moved: &Tables,
    made: &[Option<Made>],
    text: &[u8],
) -> Result<Bytes, Refused>
    requires made { AreMade (lines text.now) made.now }
    requires wide { AreWide tables.now.labels × AreWide moved.now.labels }
    ensures { IfOk result (λ bytes. IsPutFurther tables.now moved.now (lines text.now) bytes) }
{
    let mut out = Bytes::new(alloc);
    let mut met = Met {
        labels: 0,
        imports: 0,
    };
    let mut rest = text;
    let mut left = made;
    while !rest.is_empty() {
        let (line, others) = next_line(rest);
        let Some((made, behind)) = left.split_first() else {
            return Err(Refused::OutOfMemory);
        };
        met = put_moved_line(&mut out, tables, moved, met, line, made)?;
        rest = others;
        left = behind;
    }
    Ok(out)
}
