use import_slots::{SlotRefusal, slots};
use pe_image::Image;
use std::alloc::Global;

/// Bytes, and the offset at which they are written.
type Piece = (usize, &'static [u8]);

/// Writes bytes from an offset on, as far as the file goes.
fn put(file: &mut [u8], piece: Piece) {
    let start = piece.0.min(file.len());
    for (place, byte) in file[start..].iter_mut().zip(piece.1) {
        *place = *byte;
    }
}

/// An image of a section of 0x400 bytes at 0x1000, offset 0x200, with three imports: two from one
/// DLL, whose names are at 0x1080 and 0x10A0, and one from another, at 0x10C0.
fn importing(alloc: Global, names: [&'static [u8]; 3]) -> Option<Image> {
    const HEADERS: [Piece; 14] = [
        (0, b"MZ"),
        (0x3C, &[64]),
        (64, b"PE\0\0\x4C\x01\x01"),
        (84, &[224, 0]),
        (88, &[0x0B, 1]),
        (104, &[0, 0x10]),
        (116, &[0, 0, 0x10, 0x80]),
        (144, &[0, 0x20]),
        (148, &[0, 2]),
        (180, &[16]),
        (192, &[0, 0x10]),
        (312, b".text\0\0\0\0\x04\0\0\0\x10\0\0\0\x04\0\0\0\x02\0\0"),
        (348, b"\x20\0\0\xE0"),
        (0x300, b"NDIS.SYS\0"),
    ];
    const TABLE: [Piece; 6] = [
        (0x200, b"\x40\x10\0\0\0\0\0\0\0\0\0\0\0\x11\0\0\x60\x10\0\0"),
        (
            0x214,
            b"\x50\x10\0\0\0\0\0\0\0\0\0\0\x10\x11\0\0\x70\x10\0\0",
        ),
        (0x240, b"\x80\x10\0\0\xA0\x10\0\0"),
        (0x250, b"\xC0\x10\0\0"),
        (0x310, b"HAL.dll\0"),
        (0x260, b"\xFF\xFF\xFF\xFF\xFF\xFF\xFF\xFF"),
    ];
    let mut file = vec![in alloc; 0; 0x600].ok()?;
    HEADERS.iter().for_each(|piece| put(&mut file, *piece));
    TABLE.iter().for_each(|piece| put(&mut file, *piece));
    put(&mut file, (0x282, names[0]));
    put(&mut file, (0x2A2, names[1]));
    put(&mut file, (0x2C2, names[2]));
    Image::read(alloc, &file).ok()
}

/// Whether the image's imports get these addresses.
fn gets(alloc: Global, image: &Image, addresses: &[u32]) -> bool {
    match slots(alloc, image) {
        Ok(found) => found.as_slice() == addresses,
        Err(_) => false,
    }
}

/// Whether the image has this name as its first unknown one.
fn lacks(alloc: Global, image: &Image, name: &[u8]) -> bool {
    match slots(alloc, image) {
        Ok(_) => false,
        Err(refusal) => refusal == SlotRefusal::UnknownImport(name),
    }
}

#[test]
fn imports_get_their_slots(rt: HostRuntime) {
    let alloc = rt.alloc();
    let image = importing(
        alloc,
        [b"NdisMSleep", b"NdisInitializeWrapper", b"DbgPrint"],
    );
    let addresses = [0xF000_0130, 0xF000_0000, 0xF000_03F0];
    assert!(rt; image.is_some_and(|image| gets(alloc, &image, &addresses)));
}

#[test]
fn one_function_imported_twice(rt: HostRuntime) {
    let alloc = rt.alloc();
    let image = importing(alloc, [b"memcpy", b"NdisSetTimer", b"memcpy"]);
    let addresses = [0xF000_03D0, 0xF000_0100, 0xF000_03D0];
    assert!(rt; image.is_some_and(|image| gets(alloc, &image, &addresses)));
}

#[test]
fn the_first_unknown_name_is_told(rt: HostRuntime) {
    let alloc = rt.alloc();
    let image = importing(alloc, [b"NdisMSleep", b"NdisMFooBar", b"memmove"]);
    assert!(rt; image.is_some_and(|image| lacks(alloc, &image, b"NdisMFooBar")));
}
