//! Whether a file is that of an image of assembled source.

ghost use Rattle.std.specs.Prelude.{◌≡◌, [], ◌∷◌, ◌+◌, ◌*◌, ◌<◌, ◌^◌, map, drop, IsTrue, IfOk, IfSome};
ghost use Rattle.pe_image.specs.File.{u16_at, u32_at, section_header};
ghost use Rattle.pe_image.specs.Image.{sections_of};
ghost use Rattle.pe_image.specs.Grammar.{IsImage, section_table_offset};
ghost use Rattle.image_forge.specs.Forged.{all_rights, HasText, HasRawText, IsImport, AreImportsFrom, rva_of, IsImageOf, IsFileOf};

use crate::headers::IMAGE_BASE;
use crate::section::{DLL, SECTION_RVA};
use byteorder::{ByteOrder, LittleEndian};
use line_bytes::Tables;
use nd_base::OutOfMemory;
use pe_image::{Image, Import, PeRefusal, Section};
use std::alloc::Global;
use sys_forge::Assembled;

/// Where the DOS header has the offset of the signature.
const SIGNATURE_OFFSET: usize = 0x3C;

/// The number in the 2 bytes at an offset, if they are there.
#[tactic(auto, unfolding(pe_image::specs::File::u16_at))]
fn u16_at(file: &[u8], at: usize) -> Option<u16>
    ensures { IfSome result (λ number. number ≡ u16_at file.now at) }
{
    if at > file.len() || file.len() - at < 2 {
        return None;
    }
    Some(LittleEndian::read_u16(&file[at..]))
}

/// The number in the 4 bytes at an offset, if they are there.
#[tactic(auto, unfolding(pe_image::specs::File::u32_at))]
fn u32_at(file: &[u8], at: usize) -> Option<u32>
    ensures { IfSome result (λ number. number ≡ u32_at file.now at) }
{
    if at > file.len() || file.len() - at < 4 {
        return None;
    }
    Some(LittleEndian::read_u32(&file[at..]))
}

/// The offset of the section table.
fn section_table(file: &[u8]) -> Option<usize>
    ensures value { IfSome result (λ at. at ≡ section_table_offset file.now) }
    ensures low { IfSome result (λ at. at < 2 ^ 33) }
{
    let signature = u32_at(file, SIGNATURE_OFFSET)? as usize;
    let size = u16_at(file, signature + 20)?;
    Some(signature + 24 + usize::from(size))
}

/// The file from the raw part of the first section on.
fn first_raw(file: &[u8]) -> Option<&[u8]>
    ensures { IfSome result (λ raw. raw.now ≡ drop (section_header file.now (section_table_offset file.now)).raw_pointer file.now) }
{
    let start = u32_at(file, section_table(file)? + 20)? as usize;
    if start > file.len() {
        return None;
    }
    Some(&file[start..])
}

/// Whether the raw part of the first section, of which so many bytes are in the file, begins with
/// these.
fn has_raw_text(file: &[u8], raw: u32, text: &[u8]) -> bool
    ensures { IsTrue result → HasRawText file.now raw text.now }
{
    let Some(bytes) = first_raw(file) else {
        return false;
    };
    let size = text.len();
    size <= raw as usize && size <= bytes.len() && &bytes[..size] == text
}

/// Whether a section stands at RVA 0x1000 and has all rights.
fn is_whole(section: &Section) -> bool
    ensures { IsTrue result → (section.now.rva ≡ 0x1000) × (section.now.rights ≡ all_rights) }
{
    let rights = section.rights;
    section.rva == SECTION_RVA && (rights.read && (rights.write && rights.execute))
}

/// The section of an image that has no other.
fn only_section(image: &Image) -> Option<&Section>
    ensures { IfSome result (λ section. sections_of image.now ≡ section.now ∷ []) }
{
    let (section, others) = image.sections().split_first()?;
    if others.is_empty() {
        Some(section)
    } else {
        None
    }
}

/// Whether the image in a file has one section, which begins with these bytes.
fn has_text(image: &Image, file: &[u8], text: &[u8]) -> bool
    requires { IsImage file.now image.now }
    ensures { IsTrue result → HasText text.now image.now }
{
    let Some(section) = only_section(image) else {
        return false;
    };
    if !is_whole(section) {
        return false;
    }
    has_raw_text(file, section.raw, text)
}

/// Where the word of the import of a place stands, behind the first.
fn word_at(words: u32, place: u32) -> u64
    ensures { result ≡ words + 4 * place }
{
    u64::from(words) + 4 * u64::from(place)
}

/// Whether a function is the import of a place in the tables.
fn is_import(tables: &Tables, place: usize, function: &Import) -> bool
    ensures { IsTrue result → IsImport tables.now place function.now }
{
    let Some((found, _)) = tables.imports.find(function.name.as_slice()) else {
        return false;
    };
    let Ok(number) = u32::try_from(found) else {
        return false;
    };
    let slot = u64::from(IMAGE_BASE) + u64::from(function.slot);
    found == place && (slot == word_at(tables.words, number) && function.dll.as_slice() == DLL)
}

/// Whether functions are the imports of the tables, in their order.
fn are_imports(tables: &Tables, functions: &[Import]) -> bool
    ensures { IsTrue result → AreImportsFrom tables.now 0 functions.now }
{
    let mut place = 0usize;
    let mut rest = functions;
    while let Some((function, others)) = rest.split_first() {
        if !is_import(tables, place, function) {
            return false;
        }
        place += 1;
        rest = others;
    }
    place == tables.imports.len()
}

/// Whether the entry point of an image at its base is an address.
fn is_entry(image: &Image, address: u32) -> bool
    ensures { IsTrue result → image.now.base + image.now.entry ≡ address }
{
    u64::from(image.base()) + u64::from(image.entry()) == u64::from(address)
}

/// Whether the image in a file is that of assembled source, with its entry point at an address and
/// relocations of these RVAs.
fn is_image_of(
    image: &Image,
    file: &[u8],
    assembled: &Assembled,
    address: u32,
    relocated: &[u32],
) -> bool
    requires read { IsImage file.now image.now }
    requires relocated { relocated.now ≡ map rva_of assembled.now.places.items }
    ensures { IsTrue result → IsImageOf assembled.now.tables assembled.now.bytes assembled.now.places.items address image.now }
{
    image.base() == IMAGE_BASE
        && is_entry(image, address)
        && has_text(image, file, assembled.bytes.as_slice())
        && image.relocs() == relocated
        && are_imports(&assembled.tables, image.imports())
}

/// Whether a file has an image, and it is that of assembled source.
pub fn is_forged(
    alloc: Global,
    file: &[u8],
    assembled: &Assembled,
    address: u32,
    relocated: &[u32],
) -> Result<bool, OutOfMemory>
    requires { relocated.now ≡ map rva_of assembled.now.places.items }
    ensures { IfOk result (λ holds. IsTrue holds → IsFileOf assembled.now.tables assembled.now.bytes assembled.now.places.items address file.now) }
{
    match Image::read(alloc, file) {
        Ok(image) => Ok(is_image_of(&image, file, assembled, address, relocated)),
        Err(PeRefusal::OutOfMemory) => Err(OutOfMemory),
        Err(_) => Ok(false),
    }
}
