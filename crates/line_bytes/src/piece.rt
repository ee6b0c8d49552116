//! The bytes of lines.

ghost use Rattle.std.specs.Prelude.{◌≡◌, ◌≢◌, ◌+◌, ◌-◌, ◌*◌, ◌≤◌, ◌<◌, ◌⊎◌, ◌^◌, ◌∷◌, ◌++◌, length, Some, OnOk, IfOk, IfErr, IfSome, IfNone};
ghost use Rattle.std.specs.Int.{w32, to_le_bytes};
ghost use Rattle.asm_lines.specs.Values.{value_seen};
ghost use Rattle.asm_lines.specs.Statements.{statement_seen};
ghost use Rattle.asm_lines.specs.Lines.{Instruction, content_seen, line_content};
ghost use Rattle.asm_encode.specs.Jumps.{displacement, fits_in, jump_bytes};
ghost use Rattle.asm_encode.specs.Templates.{filled};
ghost use Rattle.line_bytes.specs.Tables.{row_of};
ghost use Rattle.line_bytes.specs.Numbers.{number_of, numbered};
ghost use Rattle.line_bytes.specs.Made.{IsMadeIn, made_size_in, size_in};
ghost use Rattle.line_bytes.specs.Pieces.{Adds, IsWord, IsStated, IsCall, IsPiece, IsLine};
ghost use Rattle.line_bytes.specs.Refusals.{IsBadNumber, IsBadJump, IsBadNumbered, IsBadContent};
ghost use Rattle.line_bytes.specs.Putting.{AreWide, JumpLaws, AreNumbers, IsUnnumbered, IsLed, IsPutMade, IsBadMade, IsBadLabel, IsBadImport, IsNotPut};

use crate::made::{Made, jump_length};
use crate::numbers::{number_of, number_or_0, with_numbers};
use crate::octets::put_octets;
use crate::refused::Refused;
use crate::table::Table;
use asm_encode::{Jump, Template};
use asm_lines::{Content, Statement, Value, line_content};
use ia32_fields::{calls_are_spelled, jumps_are_spelled};
use nd_base::{Bytes, OutOfMemory};

/// Where the text stands.
pub const TEXT: u32 = 0x8010_1000;

/// The most bytes of text and words, so that the image is of 4 MiB at most.
pub const MOST: usize = 0x3F_F000;

/// The addresses of labels, and the words of imports.
#[derive(Drop)]
pub struct Tables {
    pub labels: Table,
    pub imports: Table,
    /// Where the first import's word stands.
    pub words: u32,
}

/// How many labels and how many imports were met.
#[derive(Clone, Copy)]
pub struct Met {
    pub labels: usize,
    pub imports: usize,
}

/// Puts a value of four bytes behind others.
fn put_word(out: &mut Bytes, labels: &Table, value: Value<'_>) -> Result<(), Refused>
    ensures size { OnOk result (length out.new ≡ length out.old + 4) }
    ensures ok { OnOk result (Adds out.old out.new (IsWord labels.now (value_seen value.entry))) }
    ensures err { IfErr result (λ why. IsBadNumber (number_of labels.now (value_seen value.entry)) why) }
{
    let Some(number) = number_of(labels, value) else {
        return Err(Refused::Line);
    };
    let Ok(word) = u32::try_from(number) else {
        return Err(Refused::Range);
    };
    out.extend_from_slice(&word.to_le_bytes())?;
    Ok(())
}

/// From an end to a target, modulo 2^32.
fn displacement(target: u32, end: u32) -> u32
    ensures { result ≡ displacement target end }
{
    target.wrapping_sub(end)
}

fn fits_in(jump: Jump, displacement: u32) -> bool
    ensures { result ≡ fits_in jump displacement }
{
    match jump {
        Jump::Near(_) => true,
        Jump::Conditional(_) => true,
        Jump::Short(_) => displacement < 0x80 || displacement >= 0xFFFF_FF80,
    }
}

/// Puts the bytes of a jump with a displacement behind others.
fn put_displaced(out: &mut Bytes, jump: Jump, displacement: u32) -> Result<(), OutOfMemory>
    ensures { OnOk result (out.new ≡ out.old ++ jump_bytes jump displacement) }
{
    match jump {
        Jump::Near(opcode) => out.push(opcode)?,
        Jump::Conditional(opcode) => {
            out.push(0x0F)?;
            out.push(opcode)?;
        }
        Jump::Short(opcode) => {
            out.push(opcode)?;
            return out.push((displacement % 0x100) as u8);
        }
    }
    out.extend_from_slice(&displacement.to_le_bytes())
}

/// Puts a jump to an address behind others.
fn put_jump(out: &mut Bytes, jump: Jump, target: u64, at: u32) -> Result<(), Refused>
    requires { at < 2 ^ 31 + 2 ^ 30 }
    ensures ok { OnOk result (IsLed out.old out.new jump target at) }
    ensures err { IfErr result (λ why. IsBadJump (Some jump) target at why) }
{
    let Ok(target) = u32::try_from(target) else {
        return Err(Refused::Range);
    };
    let displacement = displacement(target, at + u32::from(jump_length(jump)));
    if !fits_in(jump, displacement) {
        return Err(Refused::Range);
    }
    put_displaced(out, jump, displacement)?;
    Ok(())
}

/// Puts the bytes of a template with numbers behind others.
fn put_filled(
    out: &mut Bytes,
    template: &Template,
    value: u32,
    offset: u32,
) -> Result<(), OutOfMemory>
    ensures { OnOk result (out.new ≡ out.old ++ filled template.now value offset) }
{
    match template {
        Template::Fixed(bytes) => out.extend_from_slice(bytes.as_slice()),
        Template::WithValue(bytes) => {
            let bytes = bytes.as_slice();
            out.extend_from_slice(&bytes[..bytes.len().saturating_sub(4)])?;
            out.extend_from_slice(&value.to_le_bytes())
        }
        Template::WithOffset(bytes, behind) => {
            let bytes = bytes.as_slice();
            let end = bytes.len().saturating_sub(*behind);
            out.extend_from_slice(&bytes[..end.saturating_sub(4)])?;
            out.extend_from_slice(&offset.to_le_bytes())?;
            out.extend_from_slice(&bytes[end..])
        }
        Template::WithBoth(bytes) => {
            let bytes = bytes.as_slice();
            out.extend_from_slice(&bytes[..bytes.len().saturating_sub(8)])?;
            out.extend_from_slice(&offset.to_le_bytes())?;
            out.extend_from_slice(&value.to_le_bytes())
        }
    }
}

/// Puts a template with numbers behind others, if they have four bytes.
fn put_template(
    out: &mut Bytes,
    template: &Template,
    value: u64,
    offset: u64,
) -> Result<(), Refused>
    ensures ok { OnOk result (out.new ≡ out.old ++ filled template.now value offset) }
    ensures err { IfErr result (λ why. why ≢ Refused.OutOfMemory → (2 ^ 32 ≤ value) ⊎ (2 ^ 32 ≤ offset)) }
{
    let Ok(value) = u32::try_from(value) else {
        return Err(Refused::Range);
    };
    let Ok(offset) = u32::try_from(offset) else {
        return Err(Refused::Range);
    };
    put_filled(out, template, value, offset)?;
    Ok(())
}

/// Puts an instruction behind others, whose numbers are these.
#[tactic(auto, unfolding(crate::specs::Putting::IsPutMade, crate::specs::Putting::IsBadMade))]
fn put_made(out: &mut Bytes, made: &Made, value: u64, offset: u64, at: u32) -> Result<(), Refused>
    requires { at < 2 ^ 31 + 2 ^ 30 }
    ensures ok { OnOk result (IsPutMade out.old out.new made.now value offset at) }
    ensures err { IfErr result (λ why. IsBadMade made.now value offset at why) }
{
    match made {
        Made::Faulty(fault) => Err(Refused::of(*fault)),
        Made::Jump(jump) => put_jump(out, *jump, value, at),
        Made::Plain(template) => put_template(out, template, value, offset),
    }
}

/// The laws of jumps.
#[tactic(auto, unfolding(crate::specs::Putting::JumpLaws))]
fn jump_laws()
    ensures { JumpLaws }
{
    jumps_are_spelled();
}

/// The numbers of an instruction: none where it is refused by its line wherever it stands.
fn numbers_of(labels: &Table, statement: &Statement<'_>) -> Option<(u64, u64)>
    ensures some { IfSome result (λ n. AreNumbers labels.now (statement_seen statement.now) n.0 n.1) }
    ensures none { IfNone result (IsUnnumbered labels.now (statement_seen statement.now)) }
{
    let numbered = with_numbers(statement)?;
    let value = number_or_0(labels, numbered.value)?;
    let offset = number_or_0(labels, numbered.offset)?;
    Some((value, offset))
}

/// Puts an instruction at an address behind others.
fn put_instruction(
    out: &mut Bytes,
    labels: &Table,
    statement: &Statement<'_>,
    made: &Option<Made>,
    at: u32,
) -> Result<(), Refused>
    requires low { at < 2 ^ 31 + 2 ^ 30 }
    requires made { IsMadeIn (Some (Instruction (statement_seen statement.now))) made.now }
    requires wide { AreWide labels.now }
    ensures size { OnOk result (length out.new ≡ length out.old + made_size_in made.now) }
    ensures ok { OnOk result (Adds out.old out.new (IsStated labels.now (statement_seen statement.now) at)) }
    ensures err { IfErr result (λ why. IsBadNumbered labels.now at (numbered (statement_seen statement.now)) why) }
{
    jump_laws();
    let Some((value, offset)) = numbers_of(labels, statement) else {
        return Err(Refused::Line);
    };
    match made {
        Some(made) => put_made(out, made, value, offset, at),
        None => Err(Refused::OutOfMemory),
    }
}

/// Puts a call through the word at an address behind others.
fn put_call(out: &mut Bytes, address: u32) -> Result<(), OutOfMemory>
    ensures { OnOk result (out.new ≡ out.old ++ (0xFF ∷ 0x15 ∷ to_le_bytes w32 address)) }
{
    out.push(0xFF)?;
    out.push(0x15)?;
    out.extend_from_slice(&address.to_le_bytes())
}

/// Puts the call of an import behind others, and answers how many imports are met then.
fn put_import(out: &mut Bytes, tables: &Tables, met: usize, name: &[u8]) -> Result<usize, Refused>
    requires { met ≤ 0x3FF000 }
    ensures size { OnOk result (length out.new ≡ length out.old + 6) }
    ensures ok { IfOk result (λ next. Adds out.old out.new (λ piece. IsCall tables.now met name.now piece next)) }
    ensures err { IfErr result (λ why. IsBadImport tables.now met name.now why) }
{
    calls_are_spelled();
    let Some((place, _)) = tables.imports.find(name) else {
        return Err(Refused::Line);
    };
    if place > met {
        return Err(Refused::Line);
    }
    let Some(address) = tables.words.checked_add(4 * place as u32) else {
        return Err(Refused::Range);
    };
    put_call(out, address)?;
    if place == met {
        return Ok(met + 1);
    }
    Ok(met)
}

/// What is met behind a label, if the label stands where the table says and is the next one there.
fn met_label(tables: &Tables, met: Met, name: &[u8], at: u32) -> Option<Met>
    requires { met.labels < 2 ^ 64 - 1 }
    ensures some { IfSome result (λ next. (row_of tables.now.labels name.now ≡ Some (met.labels, at)) × (next.labels ≡ met.labels + 1) × (next.imports ≡ met.imports)) }
    ensures none { IfNone result (row_of tables.now.labels name.now ≢ Some (met.labels, at)) }
{
    let (place, address) = tables.labels.find(name)?;
    if place != met.labels || address != at {
        return None;
    }
    Some(Met {
        labels: met.labels + 1,
        imports: met.imports,
    })
}

/// Puts what a line says at an address behind others, and answers what is met then.
pub fn put_content(
    out: &mut Bytes,
    tables: &Tables,
    met: Met,
    content: &Content<'_>,
    made: &Option<Made>,
    at: u32,
) -> Result<Met, Refused>
    requires low { at < 2 ^ 31 + 2 ^ 30 }
    requires made { IsMadeIn (Some (content_seen content.now)) made.now }
    requires wide { AreWide tables.now.labels }
    requires labels { met.labels < 2 ^ 64 - 1 }
    requires imports { met.imports ≤ 0x3FF000 }
    ensures size { OnOk result (length out.new ≡ length out.old + size_in (Some (content_seen content.now)) made.now) }
    ensures labels { IfOk result (λ next. next.labels ≤ met.labels + 1) }
    ensures ok { IfOk result (λ next. Adds out.old out.new (λ piece. IsPiece tables.now met at (content_seen content.now) piece next)) }
    ensures err { IfErr result (λ why. IsBadContent (IsBadLabel tables.now met at) (IsBadImport tables.now met.imports) tables.now at (content_seen content.now) why) }
{
    match *content {
        Content::Nothing => Ok(met),
        Content::Label(name) => match met_label(tables, met, name, at) {
            Some(next) => Ok(next),
            None => Err(Refused::Line),
        },
        Content::Octets(digits) => {
            put_octets(out, digits)?;
            Ok(met)
        }
        Content::Word(value) => {
            put_word(out, &tables.labels, value)?;
            Ok(met)
        }
        Content::Import(name) => {
            let imports = put_import(out, tables, met.imports, name)?;
            Ok(Met {
                labels: met.labels,
                imports,
            })
        }
        Content::Instruction(statement) => {
            put_instruction(out, &tables.labels, &statement, made, at)?;
            Ok(met)
        }
    }
}

/// Puts the bytes of a line behind others, and answers what is met then.
pub fn put_line(
    out: &mut Bytes,
    tables: &Tables,
    met: Met,
    line: &[u8],
    made: &Option<Made>,
) -> Result<Met, Refused>
    requires made { IsMadeIn (line_content line.now) made.now }
    requires wide { AreWide tables.now.labels }
    requires labels { met.labels < 2 ^ 64 - 1 }
    requires room { length out.old + 4 * met.imports ≤ 0x3FF000 }
    ensures labels { IfOk result (λ next. next.labels ≤ met.labels + 1) }
    ensures ok { IfOk result (λ next. Adds out.old out.new (λ piece. IsLine tables.now met (0x80101000 + length out.old) line.now piece next)) }
    ensures size { OnOk result (length out.new ≡ length out.old + size_in (line_content line.now) made.now) }
    ensures room { IfOk result (λ next. length out.new + 4 * next.imports ≤ 0x3FF000) }
    ensures err { IfErr result (λ why. IsNotPut tables.now met (length out.old) line.now why) }
{
    let Some(content) = line_content(line) else {
        return Err(Refused::Line);
    };
    let at = TEXT + out.len() as u32;
    let next = put_content(out, tables, met, &content, made, at)?;
    if out.len() > MOST || out.len() + 4 * next.imports > MOST {
        return Err(Refused::Range);
    }
    Ok(next)
}
