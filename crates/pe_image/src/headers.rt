//! The headers of a PE32 file (Microsoft PE/COFF specification, "COFF File Header", "Optional
//! Header" and "Section Table"). Offsets count bytes from the file's start, and numbers are
//! little-endian.

ghost use Rattle.std.specs.Prelude.{◌≡◌, ◌≤◌, ◌<◌, ◌^◌, ◌+◌, ◌*◌, length, IfOk, if◌then◌else◌, drop, take};
ghost use Rattle.pe_image.specs.File.{u16_at, u32_at, file_header, directory, optional_header, section_header, span_of, raw_of, rights_of, section_of};
ghost use Rattle.pe_image.specs.Sections.{end_of};
ghost use Rattle.pe_image.specs.Headers.{dos_header, file_header_at, optional_header_at, headers_of};

use crate::refusal::PeRefusal;
use byteorder::{ByteOrder, LittleEndian};
use nd_mem::Rights;

/// The size of an image that is read, and of its file, at most.
pub const SIZE_LIMIT: u32 = 0x40_0000;
/// The sections of an image that is read, at most.
const MOST_SECTIONS: u16 = 96;
/// The size of the DOS header.
const DOS_HEADER_SIZE: usize = 64;
/// `MZ`.
const DOS_SIGNATURE: u16 = 0x5A4D;
/// Where the DOS header has the offset of the signature.
const SIGNATURE_OFFSET: usize = 0x3C;
/// `PE`, 0, 0.
const PE_SIGNATURE: u32 = 0x4550;
/// IMAGE_FILE_MACHINE_I386.
const MACHINE_I386: u16 = 0x14C;
/// The optional header's Magic in a PE32 file.
const PE32_MAGIC: u16 = 0x10B;
/// The data directory of the Import Table.
pub const IMPORT_TABLE: u8 = 1;
/// The data directory of the Base Relocation Table.
pub const BASE_RELOCATION_TABLE: u8 = 5;
/// IMAGE_SCN_MEM_EXECUTE.
const SECTION_EXECUTE: u32 = 0x2000_0000;
/// IMAGE_SCN_MEM_READ.
const SECTION_READ: u32 = 0x4000_0000;
/// IMAGE_SCN_MEM_WRITE.
const SECTION_WRITE: u32 = 0x8000_0000;

/// The number in the 2 bytes at an offset.
#[tactic(auto, unfolding(crate::specs::File::u16_at))]
pub fn u16_at(bytes: &[u8], at: usize) -> u16
    requires { at + 2 ≤ length bytes.now }
    ensures { result ≡ u16_at bytes.now at }
{
    LittleEndian::read_u16(&bytes[at..])
}

/// The number in the 4 bytes at an offset.
#[tactic(auto, unfolding(crate::specs::File::u32_at))]
pub fn u32_at(bytes: &[u8], at: usize) -> u32
    requires { at + 4 ≤ length bytes.now }
    ensures { result ≡ u32_at bytes.now at }
{
    LittleEndian::read_u32(&bytes[at..])
}

/// The offset of the signature, which the DOS header has.
#[tactic(auto, unfolding(crate::specs::Headers::dos_header))]
fn dos_header(bytes: &[u8]) -> Result<u32, PeRefusal>
    ensures { result ≡ dos_header bytes.now }
{
    if bytes.len() < DOS_HEADER_SIZE {
        return Err(PeRefusal::Short(0));
    }
    if u16_at(bytes, 0) != DOS_SIGNATURE {
        return Err(PeRefusal::NotPe);
    }
    Ok(u32_at(bytes, SIGNATURE_OFFSET))
}

/// The signature, and the fields of the COFF file header that are asked for.
#[derive(Clone, Copy)]
pub struct FileHeader {
    pub signature: u32,
    pub machine: u16,
    pub section_count: u16,
    /// SizeOfOptionalHeader, in bytes.
    pub optional_size: u16,
    pub characteristics: u16,
}

impl FileHeader {
    /// The bytes of the signature and of the header.
    const SIZE: u32 = 24;

    /// The header at an offset, where it is there and that of a PE file for i386.
    #[tactic(auto, unfolding(crate::specs::Headers::file_header_at))]
    fn find(bytes: &[u8], at: u32) -> Result<Self, PeRefusal>
        ensures value { result ≡ file_header_at bytes.now at }
        ensures within { IfOk result (λ _. at + 24 ≤ length bytes.now) }
    {
        let offset = at as usize;
        if offset + Self::SIZE as usize > bytes.len() {
            return Err(PeRefusal::Short(at));
        }
        let header = Self::read(bytes, offset);
        if header.signature != PE_SIGNATURE {
            return Err(PeRefusal::NotPe);
        }
        if header.machine != MACHINE_I386 {
            return Err(PeRefusal::NotI386);
        }
        Ok(header)
    }

    fn read(bytes: &[u8], at: usize) -> Self
        requires { at + 24 ≤ length bytes.now }
        ensures { result ≡ file_header bytes.now at }
    {
        FileHeader {
            signature: u32_at(bytes, at),
            machine: u16_at(bytes, at + 4),
            section_count: u16_at(bytes, at + 6),
            optional_size: u16_at(bytes, at + 20),
            characteristics: u16_at(bytes, at + 22),
        }
    }
}

/// A data directory: where a table of the image lies, and how many bytes it has.
#[derive(Clone, Copy)]
pub struct Directory {
    /// The table's RVA, or 0.
    pub rva: u32,
    pub size: u32,
}

impl Directory {
    /// The directory of this number, with the RVA 0 where the optional header leaves it out.
    fn read(bytes: &[u8], at: usize, optional_size: usize, index: u8) -> Self
        requires fixed { 96 ≤ optional_size }
        requires within { at + optional_size ≤ length bytes.now }
        ensures { result ≡ directory bytes.now at optional_size index }
    {
        let offset = OptionalHeader::FIXED_SIZE + 8 * usize::from(index);
        if u32::from(index) < u32_at(bytes, at + 92) && offset + 8 <= optional_size {
            Directory {
                rva: u32_at(bytes, at + offset),
                size: u32_at(bytes, at + offset + 4),
            }
        } else {
            Directory { rva: 0, size: 0 }
        }
    }
}

/// The fields of the optional header that are asked for.
#[derive(Clone, Copy)]
pub struct OptionalHeader {
    pub magic: u16,
    /// AddressOfEntryPoint, an RVA.
    pub entry: u32,
    pub image_base: u32,
    /// SizeOfImage, in bytes.
    pub image_size: u32,
    /// SizeOfHeaders, in bytes.
    pub header_size: u32,
    /// The Import Table.
    pub imports: Directory,
    /// The Base Relocation Table.
    pub relocations: Directory,
}

impl OptionalHeader {
    /// The bytes in front of the data directories.
    const FIXED_SIZE: usize = 96;

    /// The header of this size at an offset, where it is there and that of a PE32 image.
    #[tactic(auto, unfolding(crate::specs::Headers::optional_header_at))]
    fn find(bytes: &[u8], at: u32, size: u16) -> Result<Self, PeRefusal>
        ensures value { result ≡ optional_header_at bytes.now at size }
        ensures within { IfOk result (λ _. at + size ≤ length bytes.now) }
    {
        let offset = at as usize;
        let size = usize::from(size);
        if offset + size > bytes.len() {
            return Err(PeRefusal::Short(at));
        }
        if size < Self::FIXED_SIZE || u16_at(bytes, offset) != PE32_MAGIC {
            return Err(PeRefusal::NotPe32);
        }
        Ok(Self::read(bytes, offset, size))
    }

    fn read(bytes: &[u8], at: usize, optional_size: usize) -> Self
        requires fixed { 96 ≤ optional_size }
        requires within { at + optional_size ≤ length bytes.now }
        ensures { result ≡ optional_header bytes.now at optional_size }
    {
        OptionalHeader {
            magic: u16_at(bytes, at),
            entry: u32_at(bytes, at + 16),
            image_base: u32_at(bytes, at + 28),
            image_size: u32_at(bytes, at + 56),
            header_size: u32_at(bytes, at + 60),
            imports: Directory::read(bytes, at, optional_size, IMPORT_TABLE),
            relocations: Directory::read(bytes, at, optional_size, BASE_RELOCATION_TABLE),
        }
    }
}

/// The headers of a file in front of its section table.
#[derive(Clone, Copy)]
pub struct Headers {
    pub file: FileHeader,
    pub image: OptionalHeader,
    /// The section table's offset.
    pub section_table: u32,
}

impl Headers {
    /// The headers of a file, where they are those of an image that is small enough.
    #[tactic(auto, unfolding(crate::specs::Headers::headers_of))]
    pub fn find(bytes: &[u8]) -> Result<Self, PeRefusal>
        requires { length bytes.now ≤ 0x400000 }
        ensures value { result ≡ headers_of bytes.now }
        ensures image_size { IfOk result (λ headers. headers.image.image_size ≤ 0x400000) }
        ensures section_count { IfOk result (λ headers. headers.file.section_count ≤ 96) }
    {
        let signature_at = dos_header(bytes)?;
        let file = FileHeader::find(bytes, signature_at)?;
        let optional_at = signature_at + FileHeader::SIZE;
        let image = OptionalHeader::find(bytes, optional_at, file.optional_size)?;
        if image.image_size > SIZE_LIMIT || file.section_count > MOST_SECTIONS {
            return Err(PeRefusal::TooLarge);
        }
        let section_table = optional_at + u32::from(file.optional_size);
        Ok(Headers {
            file,
            image,
            section_table,
        })
    }
}

/// A header of the section table.
#[derive(Clone, Copy, Default)]
pub struct SectionHeader {
    pub name: [u8; 8],
    pub virtual_size: u32,
    pub virtual_address: u32,
    pub raw_size: u32,
    pub raw_pointer: u32,
    pub characteristics: u32,
}

impl SectionHeader {
    /// The bytes of a header.
    pub const SIZE: usize = 40;

    /// The header at an offset.
    pub fn read(bytes: &[u8], at: usize) -> Self
        requires { at + 40 ≤ length bytes.now }
        ensures { result ≡ section_header bytes.now at }
    {
        let mut name = [0; 8];
        name.copy_from_slice(&bytes[at..at + 8]);
        SectionHeader {
            name,
            virtual_size: u32_at(bytes, at + 8),
            virtual_address: u32_at(bytes, at + 12),
            raw_size: u32_at(bytes, at + 16),
            raw_pointer: u32_at(bytes, at + 20),
            characteristics: u32_at(bytes, at + 36),
        }
    }

    /// How many bytes of the image the section takes.
    fn span(&self) -> u32
        ensures { result ≡ span_of self.now }
    {
        if self.virtual_size == 0 {
            self.raw_size
        } else {
            self.virtual_size
        }
    }

    /// Where the section ends in the image.
    pub fn end(&self) -> u64
        ensures { result ≡ end_of self.now }
    {
        u64::from(self.virtual_address) + u64::from(self.span())
    }

    /// How many of its bytes are in the file.
    pub fn raw(&self) -> u32
        ensures { result ≡ raw_of self.now }
    {
        if self.raw_pointer == 0 {
            0
        } else {
            self.span().min(self.raw_size)
        }
    }

    /// The bytes of the section that are in the file.
    pub fn raw_part<'a>(&self, bytes: &'a [u8]) -> &'a [u8]
        requires { self.now.raw_pointer + raw_of self.now ≤ length bytes.now }
        ensures { result.now ≡ take (raw_of self.now) (drop self.now.raw_pointer bytes.now) }
    {
        let start = self.raw_pointer as usize;
        &bytes[start..start + self.raw() as usize]
    }

    pub fn section(&self) -> Section
        ensures { result ≡ section_of self.now }
    {
        Section {
            name: self.name,
            rva: self.virtual_address,
            span: self.span(),
            raw: self.raw(),
            rights: rights(self.characteristics),
        }
    }
}

fn rights(characteristics: u32) -> Rights
    ensures { result ≡ rights_of characteristics }
{
    Rights {
        read: characteristics & SECTION_READ != 0,
        write: characteristics & SECTION_WRITE != 0,
        execute: characteristics & SECTION_EXECUTE != 0,
    }
}

/// A section of an image.
#[derive(Clone, Copy, Debug, PartialEq, Eq)]
pub struct Section {
    /// Up to 8 bytes of text, filled up with zeros.
    pub name: [u8; 8],
    /// The first byte's place in the image.
    pub rva: u32,
    /// How many bytes of the image it takes.
    pub span: u32,
    /// How many of them are in the file. The others are zeros.
    pub raw: u32,
    pub rights: Rights,
}
