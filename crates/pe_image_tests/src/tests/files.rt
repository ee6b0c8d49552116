//! Small files of images, as the Microsoft PE/COFF specification lays them out.

use std::alloc::Global;

/// Bytes, and the offset at which they are written.
pub type Piece = (u16, &'static [u8]);

/// A file of at most 64 KiB, written piece by piece.
#[derive(Drop)]
pub struct File {
    pub bytes: Vec<u8>,
}

impl File {
    /// A file of this size with headers of 512 bytes.
    pub fn new(alloc: Global, size: u16) -> Option<Self> {
        const HEADERS: [Piece; 9] = [
            (0, b"MZ"),
            (0x3C, &[64]),
            (64, b"PE\0\0\x4C\x01"),
            (84, &[224, 0]),
            (88, &[0x0B, 1]),
            (104, &[0, 0x10]),
            (116, &[0, 0, 0x10, 0x80]),
            (148, &[0, 2]),
            (180, &[16]),
        ];
        let bytes = vec![in alloc; 0; usize::from(size)].ok()?;
        let mut file = File { bytes };
        file.put(&HEADERS);
        Some(file)
    }

    /// Writes pieces over the bytes.
    pub fn put(&mut self, pieces: &[Piece]) {
        for (at, piece) in pieces {
            self.put_at(usize::from(*at), piece);
        }
    }

    /// Writes bytes from an offset on, as far as the file goes.
    pub fn put_at(&mut self, at: usize, piece: &[u8]) {
        let start = at.min(self.bytes.len());
        for (place, byte) in self.bytes[start..].iter_mut().zip(piece) {
            *place = *byte;
        }
    }
}

/// A driver of 1,024 bytes with one section of code.
pub fn sample(alloc: Global) -> Option<File> {
    const PIECES: [Piece; 5] = [
        (70, &[1]),
        (144, &[0, 0x20]),
        (312, b".text\0\0\0\0\x02\0\0\0\x10\0\0\0\x02\0\0\0\x02\0\0"),
        (348, b"\x20\0\0\x60"),
        (512, b"\xB8\x05\0\0\0\x83\xC0\xFB\xC2\x08\0"),
    ];
    let mut file = File::new(alloc, 1024)?;
    file.put(&PIECES);
    Some(file)
}

/// A driver with a section of 0x1000 bytes at 0x1000 and one of 0x400 bytes at 0x2000, which has
/// the offset 0x1200.
pub fn driver(alloc: Global, pieces: &[Piece]) -> Option<File> {
    const SECTIONS: [Piece; 6] = [
        (70, &[2]),
        (144, &[0, 0x30]),
        (312, b".text\0\0\0\0\x10\0\0\0\x10\0\0\0\x10\0\0\0\x02\0\0"),
        (348, b"\x20\0\0\xE0"),
        (352, b".data\0\0\0\0\x04\0\0\0\x20\0\0\0\x04\0\0\0\x12\0\0"),
        (388, b"\x40\0\0\xC0"),
    ];
    let mut file = File::new(alloc, 0x1600)?;
    file.put(&SECTIONS);
    file.put(pieces);
    Some(file)
}

/// The driver at another base, with the word at 0x1FFC relocated.
pub fn relocated(alloc: Global) -> Option<File> {
    const PIECES: [Piece; 4] = [
        (116, &[0, 0, 1, 0]),
        (0x11FC, &[0, 0x10, 1, 0]),
        (224, &[0, 0x20, 0, 0, 12]),
        (0x1200, b"\0\x10\0\0\x0C\0\0\0\xFC\x3F\0\0"),
    ];
    driver(alloc, &PIECES)
}

/// The driver with two functions of one DLL and one of another, whose OriginalFirstThunk is 0.
pub fn importing(alloc: Global) -> Option<File> {
    const PIECES: [Piece; 8] = [
        (192, &[0, 0x20]),
        (
            0x1200,
            b"\x40\x20\0\0\0\0\0\0\0\0\0\0\xA0\x20\0\0\x60\x20\0\0",
        ),
        (0x1214, b"\0\0\0\0\0\0\0\0\0\0\0\0\xB0\x20\0\0\x70\x20\0\0"),
        (0x1240, b"\x80\x20\0\0\x88\x20"),
        (0x1270, b"\x90\x20"),
        (0x1280, b"\x01\0Aa\0\0\0\0\x02\0Bb\0\0\0\0\0\0Cc\0"),
        (0x12A0, b"NDIS.SYS\0"),
        (0x12B0, b"HAL.dll\0"),
    ];
    driver(alloc, &PIECES)
}

/// The driver at 0x00010000, with a relocated word and two more that meet, and two imports whose
/// slots meet. Of the 0x600 bytes of its second section 0x400 are in the file.
pub fn meeting(alloc: Global) -> Option<File> {
    const PIECES: [Piece; 13] = [
        (116, &[0, 0, 1, 0]),
        (361, &[6]),
        (0x200, &[0, 0, 0, 0x80, 0, 0, 7]),
        (0x11FC, &[0, 0x10, 1, 0]),
        (0x15FE, &[8, 9]),
        (224, &[0, 0x20, 0, 0, 16]),
        (0x1200, b"\0\x10\0\0\x10\0\0\0\xFC\x3F\0\x30\x02\x30\0\0"),
        (192, &[0, 0x21]),
        (
            0x1300,
            b"\x80\x21\0\0\0\0\0\0\0\0\0\0\0\x22\0\0\x10\x10\0\0",
        ),
        (
            0x1314,
            b"\x88\x21\0\0\0\0\0\0\0\0\0\0\0\x22\0\0\x12\x10\0\0",
        ),
        (0x1380, b"\x10\x22\0\0\0\0\0\0\x30\x22"),
        (0x1400, b"ndis.sys\0"),
        (
            0x1410,
            b"\0\0NdisFreeMemory\0\0\0\0\0\0\0\0\0\0\0\0\0\0\0\0\0NdisAllocateMemory\0",
        ),
    ];
    driver(alloc, &PIECES)
}
