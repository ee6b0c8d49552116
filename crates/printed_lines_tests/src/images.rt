//! The lines that show an image, of files by hand as PE/COFF lays them out.

use pe_image::Image;
use printed_lines::image_lines;
use std::alloc::Global;

/// Bytes, and the offset at which they are written.
type Piece<'a> = (usize, &'a [u8]);

/// A DOS header, a signature, a file header with room for 16 data directories, and the ImageBase
/// 0x80100000, the entry 0x1000, and headers of 512 bytes.
const HEADERS: [Piece<'static>; 9] = [
    (0, b"MZ"),
    (0x3C, &[64]),
    (64, b"PE\0\0\x4C\x01"),
    (84, &[224, 0]),
    (88, &[0x0B, 1]),
    (104, &[0, 0x10]),
    (116, &[0, 0, 0x10, 0x80]),
    (148, &[0, 2]),
    (180, &[16]),
];

/// One section of eleven bytes of code.
const CODE: [Piece<'static>; 5] = [
    (70, &[1]),
    (144, &[0, 0x20]),
    (312, b".text\0\0\0\x0B\0\0\0\0\x10\0\0\0\x02\0\0\0\x02\0\0"),
    (348, b"\x20\0\0\x60"),
    (512, b"\xB8\x05\0\0\0\x83\xC0\xFB\xC2\x08\0"),
];

/// Code of 0x1000 bytes at 0x1000 that can be written, and data at 0x2000 with an odd name, one
/// import and one relocated word.
const IMPORT: [Piece<'static>; 12] = [
    (70, &[2]),
    (144, &[0, 0x30]),
    (
        312,
        b"\0\0\0\0\0\0\0\0\0\x10\0\0\0\x10\0\0\0\x10\0\0\0\x02\0\0",
    ),
    (348, b"\x20\0\0\xE0"),
    (352, b".d t\xE9~!a\0\x04\0\0\0\x20\0\0\0\x04\0\0\0\x12\0\0"),
    (388, b"\x40\0\0\xC0"),
    (192, &[0, 0x20]),
    (224, &[0, 0x23, 0, 0, 12]),
    (
        0x1200,
        b"\x40\x20\0\0\0\0\0\0\0\0\0\0\xA0\x20\0\0\x60\x20\0\0",
    ),
    (0x1240, b"\x80\x20"),
    (0x1280, b"\x01\0NdisFreeMemory\0"),
    (0x12A0, b"NDIS.SYS\0"),
];

/// The relocations of that image: of the word at 0x1FFC, and padding.
const RELOCATION: Piece<'static> = (0x1500, b"\0\x10\0\0\x0C\0\0\0\xFC\x3F\0\0");

/// A section of relocations of 0x40000 bytes at 0x2000 beside the code.
const RELOCATIONS: [Piece<'static>; 6] = [
    (70, &[2]),
    (144, &[0, 0x20, 4]),
    (312, b".text\0\0\0\0\x10\0\0\0\x10\0\0\0\x10\0\0\0\x02\0\0"),
    (348, b"\x20\0\0\x60"),
    (352, b".reloc\0\0\0\0\x04\0\0\x20\0\0\0\0\x04\0\0\x12\0\0"),
    (388, b"\x40\0\0\x42"),
];

fn put(file: &mut [u8], at: usize, bytes: &[u8]) {
    for (index, byte) in bytes.iter().enumerate() {
        if let Some(place) = file.get_mut(at.saturating_add(index)) {
            *place = *byte;
        }
    }
}

/// Puts a file of these bytes, with the headers and other pieces.
fn put_file(file: &mut Vec<u8>, len: usize, pieces: &[Piece<'_>]) -> bool {
    if file.resize(len, 0).is_err() {
        return false;
    }
    for (at, bytes) in HEADERS.iter().chain(pieces) {
        put(file, *at, bytes);
    }
    true
}

fn lines_are(alloc: Global, image: &Image, want: &[u8]) -> bool {
    match image_lines(alloc, image) {
        Ok(lines) => lines.as_slice() == want,
        Err(_) => false,
    }
}

fn shows(alloc: Global, file: &[u8], want: &[u8]) -> bool {
    match Image::read(alloc, file) {
        Ok(image) => lines_are(alloc, &image, want),
        Err(_) => false,
    }
}

#[test]
fn of_code(rt: HostRuntime) {
    let mut file = Vec::new(rt.alloc());
    assert!(rt; put_file(&mut file, 1024, &CODE));
    let want =
        b"image base 80100000 entry 00001000 size 00002000\nsection .text 00001000 0000000b 0000000b r-x\n";
    assert!(rt; shows(rt.alloc(), &file, want));
}

#[test]
fn of_each_kind(rt: HostRuntime) {
    let mut file = Vec::new(rt.alloc());
    assert!(rt; put_file(&mut file, 0x1600, &IMPORT));
    put(&mut file, RELOCATION.0, RELOCATION.1);
    let want =
        b"image base 80100000 entry 00001000 size 00003000\nsection - 00001000 00001000 00001000 rwx\nsection .d?t?~!a 00002000 00000400 00000400 rw-\nimport NDIS.SYS NdisFreeMemory 00002060\nreloc 00001ffc\n";
    assert!(rt; shows(rt.alloc(), &file, want));
}

/// Puts one block of 100,000 relocations, each of the word at 0x1000.
fn put_relocations(file: &mut [u8]) {
    put(file, 224, b"\0\x20\0\0\x48\x0D\x03\0");
    put(file, 0x1200, b"\0\x10\0\0\x48\x0D\x03\0");
    for place in file.iter_mut().skip(0x1209).step_by(2).take(100_000) {
        *place = 0x30;
    }
}

fn shows_bytes(alloc: Global, image: &Image, len: usize) -> bool {
    match image_lines(alloc, image) {
        Ok(lines) => lines.len() == len,
        Err(_) => false,
    }
}

fn file_shows_bytes(alloc: Global, file: &[u8], len: usize) -> bool {
    match Image::read(alloc, file) {
        Ok(image) => shows_bytes(alloc, &image, len),
        Err(_) => false,
    }
}

#[test]
fn of_many(rt: HostRuntime) {
    let mut file = Vec::new(rt.alloc());
    assert!(rt; put_file(&mut file, 0x4_1200, &RELOCATIONS));
    put_relocations(&mut file);
    // The head has 49 bytes, a section's line 45 or 46, a relocation's 15.
    assert!(rt; file_shows_bytes(rt.alloc(), &file, 49 + 45 + 46 + 100_000 * 15));
}
