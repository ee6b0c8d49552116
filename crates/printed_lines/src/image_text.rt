//! The lines that show a driver's image.

ghost use Rattle.std.specs.Prelude.{◌≡◌, ◌++◌, [], ◌∷◌, OnOk, OnErr, IfOk, map, string_bytes};
ghost use Rattle.std.specs.List.{flat_map};
ghost use Rattle.nd_base.specs.Text.{hex_word};
ghost use Rattle.pe_image.specs.Image.{sections_of};
ghost use Rattle.printed_lines.specs.ImageLines.{right, rights_text, name_byte, up_to_zero, section_name, head_line, section_line, section_numbers, import_line, relocation_line, image_lines};

use nd_base::laws::hex_digits_are_padded;
use nd_base::{Bytes, OutOfMemory};
use nd_mem::Rights;
use pe_image::{Image, Import, Section};
use std::alloc::{AllocError, Global};

fn right(has: bool, letter: u8) -> u8
    ensures { result ≡ right has letter }
{
    if has { letter } else { b'-' }
}

fn push_rights(text: &mut Bytes, rights: Rights) -> Result<(), OutOfMemory>
    ensures { OnOk result (text.new ≡ text.old ++ rights_text rights) }
{
    text.push(right(rights.read, b'r'))?;
    text.push(right(rights.write, b'w'))?;
    text.push(right(rights.execute, b'x'))
}

fn name_byte(byte: u8) -> u8
    ensures { result ≡ name_byte byte }
{
    if byte >= 0x21 && byte <= 0x7E {
        byte
    } else {
        b'?'
    }
}

/// What is shown of a section's name that has bytes.
fn visible_name(alloc: Global, name: &[u8]) -> Result<Bytes, OutOfMemory>
    ensures { IfOk result (λ text. text ≡ map name_byte (up_to_zero name.now)) }
{
    let mut text = Bytes::new(alloc);
    for byte in name {
        if *byte == 0 {
            return Ok(text);
        }
        text.push(name_byte(*byte))?;
    }
    Ok(text)
}

/// What is shown of a section's name.
fn section_name(alloc: Global, name: &[u8; 8]) -> Result<Bytes, OutOfMemory>
    ensures { IfOk result (λ text. text ≡ section_name name.now) }
{
    let text = visible_name(alloc, name)?;
    if text.is_empty() {
        return Bytes::copy(alloc, b"-");
    }
    Ok(text)
}

fn head_line(alloc: Global, image: &Image) -> Result<String, AllocError>
    ensures { IfOk result (λ text. string_bytes text ≡ head_line image.now) }
{
    hex_digits_are_padded();
    let base = image.base();
    let entry = image.entry();
    let size = image.size();
    format!(in alloc; "image base {base:08x} entry {entry:08x} size {size:08x}\n")
}

fn spaced_word(alloc: Global, word: u32) -> Result<String, AllocError>
    ensures { IfOk result (λ text. string_bytes text ≡ 32 ∷ hex_word word) }
{
    hex_digits_are_padded();
    format!(in alloc; " {word:08x}")
}

/// Puts a space and a word's digits behind the text.
fn push_word(alloc: Global, text: &mut Bytes, word: u32) -> Result<(), OutOfMemory>
    ensures { OnOk result (text.new ≡ text.old ++ 32 ∷ hex_word word) }
{
    let digits = spaced_word(alloc, word)?;
    text.extend_from_slice(digits.as_bytes())
}

fn push_numbers(alloc: Global, text: &mut Bytes, section: &Section) -> Result<(), OutOfMemory>
    ensures { OnOk result (text.new ≡ text.old ++ section_numbers section.now) }
{
    push_word(alloc, text, section.rva)?;
    push_word(alloc, text, section.span)?;
    push_word(alloc, text, section.raw)
}

fn push_section(alloc: Global, text: &mut Bytes, section: &Section) -> Result<(), OutOfMemory>
    ensures { OnOk result (text.new ≡ text.old ++ section_line section.now) }
{
    let name = section_name(alloc, &section.name)?;
    text.extend_from_slice(b"section ")?;
    text.extend_from_slice(name.as_slice())?;
    push_numbers(alloc, text, section)?;
    text.push(b' ')?;
    push_rights(text, section.rights)?;
    text.push(b'\n')
}

fn push_import(alloc: Global, text: &mut Bytes, import: &Import) -> Result<(), OutOfMemory>
    ensures { OnOk result (text.new ≡ text.old ++ import_line import.now) }
{
    text.extend_from_slice(b"import ")?;
    text.extend_from_slice(import.dll.as_slice())?;
    text.push(b' ')?;
    text.extend_from_slice(import.name.as_slice())?;
    push_word(alloc, text, import.slot)?;
    text.push(b'\n')
}

fn push_relocation(alloc: Global, text: &mut Bytes, rva: u32) -> Result<(), OutOfMemory>
    ensures { OnOk result (text.new ≡ text.old ++ relocation_line rva) }
{
    text.extend_from_slice(b"reloc")?;
    push_word(alloc, text, rva)?;
    text.push(b'\n')
}

fn push_sections(alloc: Global, text: &mut Bytes, sections: &[Section]) -> Result<(), OutOfMemory>
    ensures { OnOk result (text.new ≡ text.old ++ flat_map section_line sections.now) }
{
    for section in sections {
        push_section(alloc, text, section)?;
    }
    Ok(())
}

fn push_imports(alloc: Global, text: &mut Bytes, imports: &[Import]) -> Result<(), OutOfMemory>
    ensures { OnOk result (text.new ≡ text.old ++ flat_map import_line imports.now) }
{
    for import in imports {
        push_import(alloc, text, import)?;
    }
    Ok(())
}

fn push_relocations(alloc: Global, text: &mut Bytes, rvas: &[u32]) -> Result<(), OutOfMemory>
    ensures { OnOk result (text.new ≡ text.old ++ flat_map relocation_line rvas.now) }
{
    for rva in rvas {
        push_relocation(alloc, text, *rva)?;
    }
    Ok(())
}

/// The lines that show an image: its base, entry and size, and then each section, import and
/// relocated word.
#[tactic(auto, unfolding(crate::specs::ImageLines::image_lines))]
pub fn image_lines(alloc: Global, image: &Image) -> Result<Bytes, OutOfMemory>
    ensures { IfOk result (λ text. text ≡ image_lines image.now) }
{
    let head = head_line(alloc, image)?;
    let mut text = Bytes::copy(alloc, head.as_bytes())?;
    push_sections(alloc, &mut text, image.sections())?;
    push_imports(alloc, &mut text, image.imports())?;
    push_relocations(alloc, &mut text, image.relocs())?;
    Ok(text)
}
