//! The sections of an image (PE/COFF specification, "Section Table").

ghost use Rattle.std.specs.Prelude.{[], ◌≡◌, ◌≤◌, ◌<◌, ◌+◌, length, map, All, IfOk};
ghost use Rattle.std.specs.List.{list_any};
ghost use Rattle.pe_image.specs.Gathering.{Reads};
ghost use Rattle.pe_image.specs.Sections.{end_of, section_table, is_inside, meets, overlaps, section_judged, sections_judged, section_part, sections_in, seen, HasRawPart, IsLow};

use crate::headers::{Headers, OptionalHeader, Section, SectionHeader};
use crate::refusal::PeRefusal;
use arrayvec::ArrayVec;
use nd_mem::Rights;
use std::alloc::{AllocError, Global};

/// The sections of an image that is read, at most.
const MOST_SECTIONS: usize = 96;

/// The headers of a section table.
type Table = ArrayVec<SectionHeader, MOST_SECTIONS>;

/// The sections of an image, in the order of the section table.
pub type Parts<'a> = ArrayVec<Part<'a>, MOST_SECTIONS>;

/// A section with its raw part: those of its bytes that are in the file. The others are zeros.
#[derive(Clone, Copy)]
pub struct Part<'a> {
    pub section: Section,
    pub raw: &'a [u8],
}

impl Default for Part<'_> {
    /// An empty section.
    fn default() -> Self {
        Part {
            section: Section {
                name: [0; 8],
                rva: 0,
                span: 0,
                raw: 0,
                rights: Rights {
                    read: false,
                    write: false,
                    execute: false,
                },
            },
            raw: &[],
        }
    }
}

/// The headers of the section table, of which the first lies at the offset `table`.
fn section_table(bytes: &[u8], table: u32, count: u16) -> Result<Table, PeRefusal>
    requires size { length bytes.now ≤ 0x400000 }
    requires count { count ≤ 96 }
    ensures { Reads (λ v. v.items) result (section_table bytes.now table count) }
{
    let mut headers = Table::new();
    let mut at = table;
    for _ in 0..count {
        let offset = at as usize;
        if offset + SectionHeader::SIZE > bytes.len() {
            return Err(PeRefusal::Short(at));
        }
        headers.push(SectionHeader::read(bytes, offset));
        at += SectionHeader::SIZE as u32;
    }
    Ok(headers)
}

/// Whether the section shares an address with those from `start` on below `end`.
fn meets(header: &SectionHeader, start: u64, end: u64) -> bool
    ensures { result ≡ meets header.now start end }
{
    u64::from(header.virtual_address).max(start) < header.end().min(end)
}

/// Whether two sections share an address.
fn meet(header: &SectionHeader, other: &SectionHeader) -> bool
    ensures { result ≡ meets header.now other.now.virtual_address (end_of other.now) }
{
    meets(header, u64::from(other.virtual_address), other.end())
}

/// Whether the section shares an address with an earlier one.
fn meets_earlier(earlier: &[SectionHeader], header: &SectionHeader) -> bool
    ensures { result ≡ list_any (λ other. meets header.now other.virtual_address (end_of other)) earlier.now }
{
    earlier.iter().any(|other| meet(header, other))
}

/// Whether the section shares an address with the headers or an earlier section.
fn overlaps(image: &OptionalHeader, earlier: &[SectionHeader], header: &SectionHeader) -> bool
    ensures { result ≡ overlaps image.now earlier.now header.now }
{
    meets(header, 0, u64::from(image.header_size)) || meets_earlier(earlier, header)
}

/// Whether the section lies within the image, and its raw part within the file.
fn is_inside(image: &OptionalHeader, file_size: usize, header: &SectionHeader) -> bool
    ensures { result ≡ is_inside image.now file_size header.now }
{
    header.end() <= u64::from(image.image_size)
        && u64::from(header.raw_pointer) + u64::from(header.raw()) <= file_size as u64
}

#[tactic(auto, unfolding(crate::specs::Sections::section_judged))]
fn judge_section(
    image: &OptionalHeader,
    file_size: usize,
    earlier: &[SectionHeader],
    header: &SectionHeader,
) -> Result<(), PeRefusal>
    requires { length earlier.now < 96 }
    ensures { result ≡ section_judged image.now file_size earlier.now header.now }
{
    let number = earlier.len() as u16;
    if !is_inside(image, file_size, header) {
        return Err(PeRefusal::BadSection(number));
    }
    if overlaps(image, earlier, header) {
        return Err(PeRefusal::Overlap(number));
    }
    Ok(())
}

fn judge_sections(
    image: &OptionalHeader,
    file_size: usize,
    headers: &[SectionHeader],
) -> Result<(), PeRefusal>
    requires { length headers.now ≤ 96 }
    ensures { result ≡ sections_judged image.now file_size [] headers.now }
{
    for (number, header) in headers.iter().enumerate() {
        judge_section(image, file_size, &headers[..number], header)?;
    }
    Ok(())
}

/// The sections with these headers.
fn parts<'a>(bytes: &'a [u8], headers: &[SectionHeader]) -> Parts<'a>
    requires raw { All (HasRawPart bytes.now) headers.now }
    requires count { length headers.now ≤ 96 }
    ensures { map seen result.items ≡ map (section_part bytes.now) headers.now }
{
    let mut parts = Parts::new();
    for header in headers {
        parts.push(Part {
            section: header.section(),
            raw: header.raw_part(bytes),
        });
    }
    parts
}

/// The sections of a file with these headers.
#[tactic(auto, unfolding(crate::specs::Sections::sections_in))]
pub fn sections<'a>(bytes: &'a [u8], headers: &Headers) -> Result<Parts<'a>, PeRefusal>
    requires size { length bytes.now ≤ 0x400000 }
    requires count { headers.now.file.section_count ≤ 96 }
    requires image { headers.now.image.image_size ≤ 0x400000 }
    ensures value { Reads (λ v. map seen v.items) result (sections_in bytes.now headers.now) }
    ensures low { IfOk result (λ v. All IsLow (map seen v.items)) }
{
    let table = section_table(bytes, headers.section_table, headers.file.section_count)?;
    judge_sections(&headers.image, bytes.len(), &table)?;
    Ok(parts(bytes, &table))
}

/// The sections without their raw parts.
pub fn section_list(alloc: Global, parts: &[Part<'_>]) -> Result<Vec<Section>, AllocError>
    ensures { IfOk result (λ v. v.items ≡ map (λ part. part.section) parts.now) }
{
    let mut sections = Vec::new(alloc);
    for part in parts {
        sections.push(part.section)?;
    }
    Ok(sections)
}

/// The raw parts.
pub fn raw_parts(alloc: Global, parts: &[Part<'_>]) -> Result<Vec<Vec<u8>>, AllocError>
    ensures { IfOk result (λ v. map (λ b. b.items) v.items ≡ map (λ part. part.raw.now) parts.now) }
{
    let mut contents = Vec::new(alloc);
    for part in parts {
        contents.push(Vec::from_slice(alloc, part.raw)?)?;
    }
    Ok(contents)
}
