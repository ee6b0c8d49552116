//! Why files are refused.

use crate::tests::files::{File, Piece, driver, importing, relocated, sample};
use pe_image::{Image, PeRefusal};
use std::alloc::Global;

/// A change of a file, and the refusal that it makes.
type Row = (Piece, Option<PeRefusal>);

fn refusal_of(alloc: Global, bytes: &[u8]) -> Option<PeRefusal> {
    Image::read(alloc, bytes).err()
}

/// The refusal of the file with a change of up to 16 bytes, which is then undone.
fn refusal_with(alloc: Global, file: &mut File, piece: &Piece) -> Option<PeRefusal> {
    let (at, bytes) = *piece;
    let at = usize::from(at);
    let mut before = [0; 16];
    for (kept, byte) in before.iter_mut().zip(file.bytes.iter().skip(at)) {
        *kept = *byte;
    }
    file.put_at(at, bytes);
    let refusal = refusal_of(alloc, &file.bytes);
    file.put_at(at, &before);
    refusal
}

/// Whether each change makes its refusal.
fn all_refused(alloc: Global, file: Option<File>, rows: &[Row]) -> bool {
    let Some(mut file) = file else {
        return false;
    };
    for (piece, expected) in rows {
        if refusal_with(alloc, &mut file, piece) != *expected {
            return false;
        }
    }
    true
}

/// What is missing from a file of which the first bytes are there.
fn cut_at(len: usize) -> Option<PeRefusal> {
    match len {
        0..64 => Some(PeRefusal::Short(0)),
        64..88 => Some(PeRefusal::Short(64)),
        88..312 => Some(PeRefusal::Short(88)),
        312..352 => Some(PeRefusal::Short(312)),
        352..1024 => Some(PeRefusal::BadSection(0)),
        _ => None,
    }
}

fn each_prefix_is_refused(alloc: Global, bytes: &[u8]) -> bool {
    for len in 0..=bytes.len() {
        if refusal_of(alloc, &bytes[..len]) != cut_at(len) {
            return false;
        }
    }
    true
}

#[test]
fn refuses_each_prefix(rt: HostRuntime) {
    let alloc = rt.alloc();
    assert!(rt; sample(alloc).is_some_and(|file| each_prefix_is_refused(alloc, &file.bytes)));
}

#[test]
fn refuses_other_headers(rt: HostRuntime) {
    const ROWS: [Row; 8] = [
        ((0, b"ZM"), Some(PeRefusal::NotPe)),
        ((65, b"e"), Some(PeRefusal::NotPe)),
        ((68, b"\x64\x86"), Some(PeRefusal::NotI386)),
        ((84, &[95]), Some(PeRefusal::NotPe32)),
        ((88, &[0x0B, 2]), Some(PeRefusal::NotPe32)),
        ((144, &[1, 0, 0x40]), Some(PeRefusal::TooLarge)),
        ((70, &[97]), Some(PeRefusal::TooLarge)),
        ((70, &[96]), Some(PeRefusal::Short(992))),
    ];
    let alloc = rt.alloc();
    assert!(rt; all_refused(alloc, sample(alloc), &ROWS));
}

fn one_byte_too_many(alloc: Global) -> Option<PeRefusal> {
    let bytes = vec![in alloc; 0; 0x40_0001].ok()?;
    refusal_of(alloc, &bytes)
}

#[test]
fn refuses_a_file_of_more_than_4_mib(rt: HostRuntime) {
    assert!(rt; one_byte_too_many(rt.alloc()) == Some(PeRefusal::TooLarge));
}

#[test]
fn refuses_other_sections(rt: HostRuntime) {
    const ROWS: [Row; 10] = [
        // Past the image, past the file, and an empty raw part past the file.
        ((360, &[0, 0x11]), Some(PeRefusal::BadSection(1))),
        ((368, &[1, 5]), None),
        (
            (360, b"\x01\x04\0\0\0\x20\0\0\x01\x04"),
            Some(PeRefusal::BadSection(1)),
        ),
        ((368, b"\0\0\0\0\x01\x16"), Some(PeRefusal::BadSection(1))),
        // Over the headers, and over the section before.
        ((325, &[1]), Some(PeRefusal::Overlap(0))),
        ((364, &[0xFF, 0x1F]), Some(PeRefusal::Overlap(1))),
        // Empty among the headers, and beyond the image.
        ((360, b"\0\0\0\0\x10\0\0\0\0\0\0\0"), None),
        (
            (360, b"\0\0\0\0\x01\x30\0\0\0\0\0\0"),
            Some(PeRefusal::BadSection(1)),
        ),
        // No right to execute, and the entry point in another section.
        ((351, &[0x40]), Some(PeRefusal::BadEntry)),
        ((104, &[0, 0x20]), Some(PeRefusal::BadEntry)),
    ];
    let alloc = rt.alloc();
    assert!(rt; all_refused(alloc, driver(alloc, &[]), &ROWS));
}

#[test]
fn refuses_other_relocations(rt: HostRuntime) {
    const ROWS: [Row; 11] = [
        // A word that crosses from one section into the next, and another type.
        ((0x1208, &[0xFD, 0x3F]), Some(PeRefusal::BadReloc(8200))),
        ((0x120A, &[0, 0x20]), Some(PeRefusal::BadReloc(8202))),
        // Sizes that are odd, past the table and below 8.
        ((0x1204, &[0x0B]), Some(PeRefusal::BadReloc(0x2000))),
        ((0x1204, &[0x0E]), Some(PeRefusal::BadReloc(0x2000))),
        ((0x1204, &[6]), Some(PeRefusal::BadReloc(0x2000))),
        // The block that ends the list, and a table of less than one block.
        ((0x1200, &[0, 0, 0, 0, 0, 0, 0, 0]), None),
        ((228, &[7]), None),
        // The directory outside the sections, past its section, and left out.
        ((224, &[0, 0x24]), Some(PeRefusal::BadDirectory(5))),
        ((228, &[1, 4]), Some(PeRefusal::BadDirectory(5))),
        ((180, &[5]), None),
        ((86, &[1]), Some(PeRefusal::RelocsStripped)),
    ];
    let alloc = rt.alloc();
    assert!(rt; all_refused(alloc, relocated(alloc), &ROWS));
}

#[test]
fn refuses_other_imports(rt: HostRuntime) {
    const ROWS: [Row; 8] = [
        ((193, &[0x24]), Some(PeRefusal::BadDirectory(1))),
        // A descriptor, a thunk and a slot that are cut off.
        ((192, &[0xF0, 0x23]), Some(PeRefusal::BadImport(0x23F0))),
        ((0x1200, &[0xFE, 0x23]), Some(PeRefusal::BadImport(0x23FE))),
        ((0x1210, &[0xFE, 0x23]), Some(PeRefusal::BadImport(0x23FE))),
        ((0x1244, b"\x01\0\0\x80"), Some(PeRefusal::Ordinal(0x2044))),
        // Names that are empty, not printable and outside the sections.
        ((0x1282, &[0]), Some(PeRefusal::BadImport(0x2082))),
        ((0x12A1, &[0x7F]), Some(PeRefusal::BadImport(0x20A0))),
        ((0x1244, &[0, 0x30]), Some(PeRefusal::BadImport(0x3002))),
    ];
    let alloc = rt.alloc();
    assert!(rt; all_refused(alloc, importing(alloc), &ROWS));
}

/// The file with the first function's name at 0x2202, of as many bytes as there are before `end`.
fn with_name_up_to(file: &mut File, end: usize) {
    file.put_at(0x1240, &[0, 0x22]);
    for at in 0x1402..end {
        file.put_at(at, b"x");
    }
}

fn takes_255_bytes_alone(alloc: Global) -> Option<bool> {
    let mut file = importing(alloc)?;
    with_name_up_to(&mut file, 0x1402 + 255);
    let longest = refusal_of(alloc, &file.bytes);
    with_name_up_to(&mut file, 0x1402 + 256);
    let longer = refusal_of(alloc, &file.bytes);
    Some(longest.is_none() && longer == Some(PeRefusal::BadImport(0x2202)))
}

#[test]
fn takes_names_of_255_bytes(rt: HostRuntime) {
    assert!(rt; takes_255_bytes_alone(rt.alloc()) == Some(true));
}

fn says(alloc: Global, refusal: PeRefusal, expected: &str) -> bool {
    format!(in alloc; "{refusal}").is_ok_and(|text| text.as_str() == expected)
}

#[test]
fn says_why_a_file_is_not_read(rt: HostRuntime) {
    const ROWS: [(PeRefusal, &str); 14] = [
        (PeRefusal::OutOfMemory, "out of memory"),
        (PeRefusal::TooLarge, "the file is too large"),
        (PeRefusal::Short(64), "the file ends in the structure at 64"),
        (PeRefusal::NotPe, "the file is no PE file"),
        (PeRefusal::NotI386, "the file is not for i386"),
        (PeRefusal::NotPe32, "the file is no PE32 image"),
        (PeRefusal::BadSection(2), "no room for section 2"),
        (PeRefusal::Overlap(3), "earlier addresses in section 3"),
        (
            PeRefusal::BadEntry,
            "the entry point is in no executable section",
        ),
        (
            PeRefusal::BadDirectory(5),
            "no section has data directory 5",
        ),
        (PeRefusal::BadReloc(8202), "wrong base relocation at 8202"),
        (
            PeRefusal::RelocsStripped,
            "another base, and relocations are stripped",
        ),
        (PeRefusal::BadImport(8194), "wrong import at 8194"),
        (PeRefusal::Ordinal(8260), "import by ordinal at 8260"),
    ];
    let alloc = rt.alloc();
    assert!(rt;
        ROWS.iter()
            .all(|(refusal, text)| says(alloc, *refusal, text))
    );
}
