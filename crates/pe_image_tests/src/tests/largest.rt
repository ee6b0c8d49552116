//! The largest images: 4 MiB, 4,096 imports, and 100,000 relocations.

use crate::tests::files::{File, Piece};
use crate::tests::mapping::map;
use nd_base::Addr;
use nd_mem::Memory;
use pe_image::{Image, Import, ImportAddresses, PeRefusal};
use std::alloc::Global;

const SIZE: usize = 0x40_0000;
/// The section of the Import Table, and of the Base Relocation Table.
const IMPORTS_AT: u32 = 0x20_1000;

const RELOCATIONS_AT: u32 = 0x30_1000;
/// The thunks, the slots and the names of the imports.
const THUNKS_AT: u32 = IMPORTS_AT + 0x1000;

const SLOTS_AT: u32 = IMPORTS_AT + 0x6000;

const NAMES_AT: u32 = IMPORTS_AT + 0x1_0000;

const RELOCATIONS: u32 = 100_000;

/// Three sections, each with its offset in the file as its RVA, and a table of 100,000
/// relocations, of which one block of 0x1000 bytes has 512.
const PIECES: [Piece; 11] = [
    (70, &[3]),
    (116, &[0, 0, 1, 0]),
    (144, &[0, 0, 0x40]),
    (148, &[0, 0x10]),
    (192, &[0, 0x10, 0x20]),
    (224, &[0, 0x10, 0x30, 0, 0x60, 0x13, 3]),
    (312, b".text\0\0\0\0\0\x20\0\0\x10\0\0\0\0\x20\0\0\x10\0\0"),
    (348, b"\x20\0\0\x60"),
    (
        352,
        b".idata\0\0\0\0\x10\0\0\x10\x20\0\0\0\x10\0\0\x10\x20\0",
    ),
    (388, b"\x40\0\0\xC0"),
    (
        392,
        b".reloc\0\0\0\xF0\x0F\0\0\x10\x30\0\0\xF0\x0F\0\0\x10\x30\0",
    ),
];

fn put_word(file: &mut File, at: u32, word: u32) {
    file.put_at(at as usize, &word.to_le_bytes());
}

/// A descriptor, and as many thunks, each of the name `f`.
fn put_imports(file: &mut File, count: u16) {
    put_word(file, IMPORTS_AT, THUNKS_AT);
    put_word(file, IMPORTS_AT + 12, NAMES_AT);
    put_word(file, IMPORTS_AT + 16, SLOTS_AT);
    file.put_at(NAMES_AT as usize, b"a.sys\0\0\0f\0");
    for index in 0..count {
        let offset = 4 * u32::from(index);
        put_word(file, THUNKS_AT + offset, NAMES_AT + 6);
        put_word(file, SLOTS_AT + offset, NAMES_AT + 6);
    }
}

/// A block of relocations for each page: of every eighth byte, from the page's first on.
fn put_relocations(file: &mut File) {
    for index in 0..RELOCATIONS {
        let (block, entry) = (index / 512, index % 512);
        let count = (RELOCATIONS - 512 * block).min(512);
        let at = RELOCATIONS_AT + (8 + 1024) * block;
        put_word(file, at, 0x1000 + 0x1000 * block);
        put_word(file, at + 4, 8 + 2 * count);
        let place = at + 8 + 2 * entry;
        file.put_at(place as usize, &(0x3000 + 8 * entry as u16).to_le_bytes());
    }
}

fn largest(alloc: Global, imports: u16) -> Option<File> {
    let mut file = File::new(alloc, 0x1000)?;
    file.bytes.resize(SIZE, 0).ok()?;
    file.put(&PIECES);
    put_imports(&mut file, imports);
    put_relocations(&mut file);
    Some(file)
}

fn is_function(import: &Import) -> bool {
    import.dll.as_slice() == b"a.sys".as_slice() && import.name.as_slice() == b"f".as_slice()
}

fn is_largest(image: &Image) -> bool {
    let relocations = image.relocs();
    let imports = image.imports();
    let slots = [imports.first(), imports.last()].map(|import| import.map(|import| import.slot));
    relocations.len() == 100_000
        && relocations.first() == Some(&0x1000)
        && relocations.last() == Some(&0xC_44F8)
        && imports.len() == 4096
        && imports.iter().all(is_function)
        && slots == [Some(0x20_7000), Some(0x20_AFFC)]
}

fn read(alloc: Global, imports: u16) -> Option<Result<Image, PeRefusal>> {
    let file = largest(alloc, imports)?;
    Some(Image::read(alloc, &file.bytes))
}

#[test]
fn reads_the_largest_image(rt: HostRuntime) {
    let image = read(rt.alloc(), 4096);
    assert!(rt; image.is_some_and(|image| image.is_ok_and(|image| is_largest(&image))));
}

#[test]
fn refuses_one_import_more(rt: HostRuntime) {
    let image = read(rt.alloc(), 4097);
    assert!(rt; image.is_some_and(|image| image.err() == Some(PeRefusal::TooLarge)));
}

fn many_addresses(alloc: Global) -> Option<ImportAddresses> {
    let mut addresses = ImportAddresses::new(alloc);
    for index in 0..4096 {
        addresses.push(Addr(0xF000_0000 + index)).ok()?;
    }
    Some(addresses)
}

fn map_largest(alloc: Global, memory: &mut Memory) -> Option<()> {
    let slots = many_addresses(alloc)?;
    let image = read(alloc, 4096)?.ok()?;
    map(alloc, &image, Addr(0x8010_0000), &slots, memory)?.ok()
}

fn has_word(memory: &Memory, at: u32, expected: u32) -> bool {
    let mut word = [0; 4];
    memory.read(Addr(at), &mut word).is_ok() && u32::from_le_bytes(word) == expected
}

#[test]
fn maps_the_largest_image(rt: HostRuntime) {
    let mut memory = Memory::new(rt.alloc());
    assert!(rt; map_largest(rt.alloc(), &mut memory).is_some());
    // A relocated word of zeros, one that is not relocated, and the last slot.
    assert!(rt; has_word(&memory, 0x8010_1000, 0x800F_0000));
    assert!(rt; has_word(&memory, 0x8010_1004, 0));
    assert!(rt; has_word(&memory, 0x8030_AFFC, 0xF000_0FFF));
}
