//! The reading of a PE32 image, check by check.

ghost use Rattle.std.specs.Prelude.{◌≡◌, ◌≤◌, ◌+◌, map, All, IfOk, IfSome};
ghost use Rattle.pe_image.specs.Sections.{seen, IsLow};
ghost use Rattle.pe_image.specs.Reading.{has_entry, is_placed, can_be_placed};
ghost use Rattle.pe_image.specs.Held.{IsPlacing, IsReading};

use crate::gathered::Gathered;
use crate::headers::{Headers, IMPORT_TABLE, SIZE_LIMIT};
use crate::imports::{Import, imports};
use crate::lookup::section_with;
use crate::refusal::PeRefusal;
use crate::relocations::{relocation_section, relocations};
use crate::sections::{Part, Parts, sections};
use std::alloc::Global;

/// The address at which drivers are mapped.
const IMAGE_BASE: u32 = 0x8010_0000;
/// IMAGE_FILE_RELOCS_STRIPPED.
const RELOCS_STRIPPED: u16 = 1;

/// A file whose headers, sections and directories are right.
#[derive(Drop)]
pub struct Placed<'a> {
    pub headers: Headers,
    pub parts: Parts<'a>,
    /// The section that has the Base Relocation Table, where there is one.
    pub table: Option<Part<'a>>,
}

/// What a file says of its image.
#[derive(Drop)]
pub struct Contents<'a> {
    pub placed: Placed<'a>,
    pub relocations: Gathered<u32>,
    pub imports: Gathered<Import>,
}

/// Whether a section that can be executed has the entry point.
fn has_entry(parts: &[Part<'_>], entry: u32) -> bool
    ensures { result ≡ has_entry (map seen parts.now) entry }
{
    for part in parts {
        if part.holds_byte(entry) && part.section.rights.execute {
            return true;
        }
    }
    false
}

/// Whether there is no table, or a section has its first byte.
fn is_placed(parts: &[Part<'_>], rva: u32) -> bool
    requires { All IsLow (map seen parts.now) }
    ensures { result ≡ is_placed (map seen parts.now) rva }
{
    rva == 0 || section_with(parts, rva).is_some()
}

/// Whether the image's base is where drivers are mapped, or it can be relocated.
fn can_be_placed(headers: &Headers) -> bool
    ensures { result ≡ can_be_placed headers.now }
{
    headers.image.image_base == IMAGE_BASE || headers.file.characteristics & RELOCS_STRIPPED == 0
}

/// The headers, the sections and the directories of a file, where nothing is wrong with them.
#[tactic(auto, unfolding(crate::specs::Reading::reading))]
fn place(bytes: &[u8]) -> Result<Placed<'_>, PeRefusal>
    ensures reading { IsPlacing bytes.now result }
    ensures low { IfOk result (λ placed. All IsLow (map seen placed.parts.items)) }
    ensures from { IfOk result (λ placed. IfSome placed.table (λ part. part.section.rva ≤ placed.headers.image.relocations.rva)) }
    ensures table { IfOk result (λ placed. IfSome placed.table (λ _. placed.headers.image.relocations.rva + placed.headers.image.relocations.size ≤ 0x400000)) }
{
    if bytes.len() > SIZE_LIMIT as usize {
        return Err(PeRefusal::TooLarge);
    }
    let headers = Headers::find(bytes)?;
    let parts = sections(bytes, &headers)?;
    if !has_entry(&parts, headers.image.entry) {
        return Err(PeRefusal::BadEntry);
    }
    if !is_placed(&parts, headers.image.imports.rva) {
        return Err(PeRefusal::BadDirectory(IMPORT_TABLE));
    }
    let table = relocation_section(&parts, &headers.image.relocations)?;
    Ok(Placed {
        headers,
        parts,
        table,
    })
}

/// What a file says of its image, where nothing is wrong with it.
pub fn read_contents(alloc: Global, bytes: &[u8]) -> Result<Contents<'_>, PeRefusal>
    ensures { IsReading bytes.now result }
{
    let placed = place(bytes)?;
    let directory = &placed.headers.image.relocations;
    let relocations = relocations(alloc, &placed.parts, directory, &placed.table)?;
    if !can_be_placed(&placed.headers) {
        return Err(PeRefusal::RelocsStripped);
    }
    let imports = imports(alloc, &placed.parts, placed.headers.image.imports.rva)?;
    Ok(Contents {
        placed,
        relocations,
        imports,
    })
}
