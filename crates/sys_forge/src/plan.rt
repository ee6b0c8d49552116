//! Where labels and the words of imports stand.

ghost use Rattle.std.specs.Prelude.{◌≡◌, ◌≤◌, ◌+◌, IfOk, OnOk};
ghost use Rattle.std.specs.Option.{option_map};
ghost use Rattle.std.specs.Str.Lines.{lines};
ghost use Rattle.asm_lines.specs.Lines.{content_seen, line_content};
ghost use Rattle.line_bytes.specs.Made.{IsMadeIn};
ghost use Rattle.line_bytes.specs.Putting.{AreWide};
ghost use Rattle.sys_forge.specs.Standing.{labels_with, imports_with, behind, past, none_laid, laid, AreMade};

use crate::moved::DISTANCE;
use asm_lines::{Content, line_content};
use line_bytes::{MOST, Made, TEXT, Table, Tables, made_in, size_in};
use nd_base::OutOfMemory;
use nd_base::words::next_line;
use std::alloc::Global;

/// Where the labels and the words of the imports of a source stand, where they do if all stands a
/// distance further, and what the instruction of each line is, if it is one.
#[derive(Drop)]
pub struct Layouts {
    pub tables: Tables,
    pub moved: Tables,
    pub made: Vec<Option<Made>>,
}

/// Notes the label of a line.
#[tactic(auto, unfolding(crate::specs::Standing::labels_with))]
fn note_label(
    alloc: Global,
    labels: &mut Table,
    content: &Option<Content<'_>>,
    at: u32,
) -> Result<(), OutOfMemory>
    ensures { OnOk result (labels.new ≡ labels_with labels.old at (option_map content_seen content.now)) }
{
    match content {
        Some(Content::Label(name)) => labels.add(alloc, name, at),
        _ => Ok(()),
    }
}

/// Notes the import of a line.
#[tactic(auto, unfolding(crate::specs::Standing::imports_with))]
fn note_import(
    alloc: Global,
    imports: &mut Table,
    content: &Option<Content<'_>>,
) -> Result<(), OutOfMemory>
    ensures { OnOk result (imports.new ≡ imports_with imports.old (option_map content_seen content.now)) }
{
    match content {
        Some(Content::Import(name)) => imports.add(alloc, name, 0),
        _ => Ok(()),
    }
}

/// The address behind so many bytes. A line that takes the text past its most bytes counts as none.
#[tactic(auto, unfolding(crate::specs::Standing::behind))]
fn behind(at: u32, size: usize) -> u32
    requires { at ≤ 0x80500000 }
    ensures address { result ≡ behind at size }
    ensures low { result ≤ 0x80500000 }
    ensures high { at ≤ result }
{
    let end = TEXT + MOST as u32;
    if size > (end - at) as usize {
        return at;
    }
    at + size as u32
}

/// Notes a line.
#[tactic(auto, unfolding(crate::specs::Standing::past))]
fn note_line(
    alloc: Global,
    tables: &mut Tables,
    content: &Option<Content<'_>>,
    made: &Option<Made>,
) -> Result<(), OutOfMemory>
    requires { tables.old.words ≤ 0x80500000 }
    ensures low { OnOk result (tables.new.words ≤ 0x80500000) }
    ensures high { OnOk result (tables.old.words ≤ tables.new.words) }
    ensures past { OnOk result (tables.new ≡ past tables.old (option_map content_seen content.now) made.now) }
{
    let at = tables.words;
    note_label(alloc, &mut tables.labels, content, at)?;
    note_import(alloc, &mut tables.imports, content)?;
    tables.words = behind(at, size_in(content, made));
    Ok(())
}

/// Notes a line where it stands at an address.
fn note_line_at(
    alloc: Global,
    tables: &mut Tables,
    content: &Option<Content<'_>>,
    at: u32,
) -> Result<(), OutOfMemory>
    ensures labels { OnOk result (tables.new.labels ≡ labels_with tables.old.labels at (option_map content_seen content.now)) }
    ensures words { OnOk result (tables.new.words ≡ tables.old.words) }
{
    note_label(alloc, &mut tables.labels, content, at)?;
    note_import(alloc, &mut tables.imports, content)
}

/// No labels and imports, and the words at the begin of the text.
fn begun(alloc: Global) -> Tables
    ensures { result ≡ none_laid }
{
    Tables {
        labels: Table::new(alloc),
        imports: Table::new(alloc),
        words: TEXT,
    }
}

/// Where the labels and the words of the imports of a source stand.
pub fn plan(alloc: Global, text: &[u8]) -> Result<Layouts, OutOfMemory>
    ensures made { IfOk result (λ p. AreMade (lines text.now) p.made.items) }
    ensures laid { IfOk result (λ p. p.tables ≡ laid none_laid (lines text.now) p.made.items) }
    ensures low { IfOk result (λ p. p.tables.words ≤ 0x80500000) }
    ensures wide { IfOk result (λ p. AreWide p.tables.labels × AreWide p.moved.labels) }
    ensures moved { IfOk result (λ p. p.moved.words ≡ p.tables.words + 0x01010101) }
{
    let mut tables = begun(alloc);
    let mut moved = begun(alloc);
    let mut all = Vec::new(alloc);
    let mut rest = text;
    while !rest.is_empty() {
        let (line, others) = next_line(rest);
        let content = line_content(line);
        let made = made_in(&content);
        note_line_at(alloc, &mut moved, &content, tables.words + DISTANCE)?;
        note_line(alloc, &mut tables, &content, &made)?;
        all.push(made)?;
        rest = others;
    }
    moved.words = tables.words + DISTANCE;
    Ok(Layouts {
        tables,
        moved,
        made: all,
    })
}
