//! The file: headers, and the section behind them (Microsoft PE/COFF specification, "File Headers",
//! "Optional Header" and "Section Table").

ghost use Rattle.std.specs.Prelude.{◌≢◌};

use crate::numbers::{put_halves, put_words, put_zeros_to};
use crate::section::{Directory, SECTION_RVA, Section, rva_behind};
use nd_base::{Bytes, OutOfMemory};
use std::alloc::Global;

/// Where drivers are mapped.
pub const IMAGE_BASE: u32 = 0x8010_0000;

/// The offset of the signature, and where the DOS header says so.
const SIGNATURE: usize = 0x40;

const SIGNATURE_OFFSET: usize = 0x3C;
/// IMAGE_FILE_MACHINE_I386.
const MACHINE_I386: u16 = 0x14C;
/// SizeOfOptionalHeader, with 16 data directories.
const OPTIONAL_SIZE: u16 = 0xE0;
/// IMAGE_FILE_EXECUTABLE_IMAGE and IMAGE_FILE_32BIT_MACHINE.
const CHARACTERISTICS: u16 = 0x0102;
/// Magic of PE32.
const PE32_MAGIC: u16 = 0x10B;
/// The size of pages, on which sections begin in the image.
const SECTION_ALIGNMENT: u32 = 0x1000;
/// SizeOfHeaders, and the size on whose multiples sections begin in the file.
const HEADER_SIZE: u32 = 0x200;
/// IMAGE_SUBSYSTEM_NATIVE.
const NATIVE: u16 = 1;
/// IMAGE_SCN_CNT_CODE and IMAGE_SCN_CNT_INITIALIZED_DATA, to be executed, read and written.
const SECTION_FLAGS: u32 = 0xE000_0060;

/// The least multiple of a size that is no less.
fn up_to(size: u32, number: u32) -> u32
    requires { size ≢ 0 }
{
    number.saturating_add(size - 1) / size * size
}

/// The DOS header, the signature and the COFF file header.
fn put_file_header(file: &mut Bytes) -> Result<(), OutOfMemory> {
    file.extend_from_slice(b"MZ")?;
    put_zeros_to(file, SIGNATURE_OFFSET)?;
    put_words(file, &[SIGNATURE as u32])?;
    file.extend_from_slice(b"PE\0\0")?;
    put_halves(file, &[MACHINE_I386, 1])?;
    put_words(file, &[0, 0, 0])?;
    put_halves(file, &[OPTIONAL_SIZE, CHARACTERISTICS])
}

/// The fields of the optional header in front of the data directories, with the RVA of the entry
/// point and that behind the section's bytes.
fn put_fields(file: &mut Bytes, entry: u32, end: u32) -> Result<(), OutOfMemory> {
    let image_size = up_to(SECTION_ALIGNMENT, end);
    let code_size = up_to(HEADER_SIZE, end.saturating_sub(SECTION_RVA));
    put_halves(file, &[PE32_MAGIC, 0])?;
    put_words(file, &[code_size, 0, 0, entry, SECTION_RVA, 0])?;
    put_words(file, &[IMAGE_BASE, SECTION_ALIGNMENT, HEADER_SIZE])?;
    // Windows XP
    put_halves(file, &[5, 1, 0, 0, 5, 1])?;
    put_words(file, &[0, image_size, HEADER_SIZE, 0])?;
    put_halves(file, &[NATIVE, 0])?;
    // stack and heap, no loader flags, and 16 data directories
    put_words(file, &[0x4_0000, 0x1000, 0x10_0000, 0x1000, 0, 16])
}

fn put_directory(file: &mut Bytes, directory: Directory) -> Result<(), OutOfMemory> {
    put_words(file, &[directory.rva, directory.size])
}

/// The data directories, of which the second is the Import Table and the sixth the Base Relocation
/// Table.
fn put_directories(file: &mut Bytes, section: &Section) -> Result<(), OutOfMemory> {
    put_words(file, &[0; 2])?;
    put_directory(file, section.imports)?;
    put_words(file, &[0; 6])?;
    put_directory(file, section.relocations)?;
    put_words(file, &[0; 20])
}

/// The header of the section, with the RVA behind its bytes.
fn put_section_header(file: &mut Bytes, end: u32) -> Result<(), OutOfMemory> {
    let size = end.saturating_sub(SECTION_RVA);
    file.extend_from_slice(b".text\0\0\0")?;
    put_words(file, &[size, SECTION_RVA, up_to(HEADER_SIZE, size)])?;
    put_words(file, &[HEADER_SIZE, 0, 0, 0, SECTION_FLAGS])
}

/// The file of an image with this section and the RVA of the entry point.
pub fn file_of(alloc: Global, section: &Section, entry: u32) -> Result<Bytes, OutOfMemory> {
    let end = rva_behind(&section.bytes);
    let mut file = Bytes::new(alloc);
    put_file_header(&mut file)?;
    put_fields(&mut file, entry, end)?;
    put_directories(&mut file, section)?;
    put_section_header(&mut file, end)?;
    put_zeros_to(&mut file, HEADER_SIZE as usize)?;
    file.extend_from_slice(section.bytes.as_slice())?;
    let size = up_to(HEADER_SIZE, end.saturating_sub(SECTION_RVA));
    put_zeros_to(&mut file, HEADER_SIZE as usize + size as usize)?;
    Ok(file)
}
