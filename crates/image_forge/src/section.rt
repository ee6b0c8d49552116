//! The one section: text, the words of imports, and the tables that the loader reads (Microsoft
//! PE/COFF specification, "The .idata Section" and "The .reloc Section").

ghost use Rattle.std.specs.Prelude.{◌≤◌, length};

use crate::numbers::{align, put_halves, put_words};
use line_bytes::Table;
use nd_base::{Bytes, OutOfMemory};
use std::alloc::Global;
use sys_forge::Assembled;

/// Where the section begins in the image.
pub const SECTION_RVA: u32 = 0x1000;

/// The DLL that all imports are of.
pub const DLL: &[u8] = b"NDIS.SYS";

/// The bytes of a page, for which one block relocates words.
const PAGE: u32 = 0x1000;

/// The type of an entry that relocates a word of 4 bytes, IMAGE_REL_BASED_HIGHLOW, above an offset.
const HIGHLOW: u16 = 0x3000;

/// Where a table lies in the image, and how many bytes it has.
#[derive(Clone, Copy)]
pub struct Directory {
    pub rva: u32,
    pub size: u32,
}

/// No table.
const ABSENT: Directory = Directory { rva: 0, size: 0 };

/// The section's bytes, and where its tables lie.
#[derive(Drop)]
pub struct Section {
    pub bytes: Bytes,
    pub imports: Directory,
    pub relocations: Directory,
}

/// The RVA behind a section's bytes. Where it would pass 4 GiB, it is one that no image has.
pub fn rva_behind(section: &Bytes) -> u32 {
    u32::try_from(section.len())
        .unwrap_or(u32::MAX)
        .saturating_add(SECTION_RVA)
}

/// Puts a DLL's name behind a section's bytes and answers its RVA.
fn put_dll(section: &mut Bytes) -> Result<u32, OutOfMemory> {
    let rva = rva_behind(section);
    section.extend_from_slice(DLL)?;
    section.push(0)?;
    Ok(rva)
}

/// Puts the hint and the name of each import behind a section's bytes and answers their RVAs.
fn put_names(alloc: Global, section: &mut Bytes, imports: &Table) -> Result<Vec<u32>, OutOfMemory> {
    let mut rvas = Vec::new(alloc);
    for place in 0..imports.len() {
        if let Some(name) = imports.name(place) {
            align(section)?;
            rvas.push(rva_behind(section))?;
            section.extend_from_slice(&[0, 0])?;
            section.extend_from_slice(name)?;
            section.push(0)?;
        }
    }
    Ok(rvas)
}

/// Puts the Import Table behind a section's bytes: one descriptor, whose words stand at an RVA.
fn put_imports(
    alloc: Global,
    section: &mut Bytes,
    imports: &Table,
    words: u32,
) -> Result<Directory, OutOfMemory> {
    if imports.len() == 0 {
        return Ok(ABSENT);
    }
    let dll = put_dll(section)?;
    let names = put_names(alloc, section, imports)?;
    align(section)?;
    let lookups = rva_behind(section);
    put_words(section, names.as_slice())?;
    put_words(section, &[0])?;
    let rva = rva_behind(section);
    put_words(section, &[lookups, 0, 0, dll, words])?;
    put_words(section, &[0; 5])?;
    Ok(Directory { rva, size: 40 })
}

/// How many of the words are in the page at an RVA, up to the first that is not.
fn count_in(page: u32, rvas: &[u32]) -> usize
    ensures { result ≤ length rvas.now }
{
    match rvas.iter().position(|rva| rva / PAGE * PAGE != page) {
        Some(count) => count,
        None => rvas.len(),
    }
}

/// Puts the block of a page behind a section's bytes, with an entry that says nothing where they
/// are odd.
fn put_block(section: &mut Bytes, page: u32, rvas: &[u32]) -> Result<(), OutOfMemory> {
    let entries = rvas.len() + rvas.len() % 2;
    let size = u32::try_from(8 + 2 * entries).unwrap_or(u32::MAX);
    put_words(section, &[page, size])?;
    for rva in rvas {
        put_halves(section, &[HIGHLOW + (*rva % PAGE) as u16])?;
    }
    align(section)
}

/// Puts the Base Relocation Table behind a section's bytes, a block for each page.
fn put_relocations(section: &mut Bytes, rvas: &[u32]) -> Result<Directory, OutOfMemory> {
    if rvas.is_empty() {
        return Ok(ABSENT);
    }
    align(section)?;
    let rva = rva_behind(section);
    let mut rest = rvas;
    while let Some((first, others)) = rest.split_first() {
        let page = *first / PAGE * PAGE;
        let count = count_in(page, others);
        put_block(section, page, &rest[..count + 1])?;
        rest = &others[count..];
    }
    let size = rva_behind(section).saturating_sub(rva);
    Ok(Directory { rva, size })
}

/// The section of a source that is assembled: its bytes, a zero word that ends the words of imports,
/// and the tables.
pub fn section_of(
    alloc: Global,
    assembled: &Assembled,
    words: u32,
    relocated: &[u32],
) -> Result<Section, OutOfMemory> {
    let mut bytes = assembled.bytes.copied(alloc)?;
    put_words(&mut bytes, &[0])?;
    let imports = put_imports(alloc, &mut bytes, &assembled.tables.imports, words)?;
    let relocations = put_relocations(&mut bytes, relocated)?;
    Ok(Section {
        bytes,
        imports,
        relocations,
    })
}
