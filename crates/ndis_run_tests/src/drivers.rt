//! Driver images.

/// Five is moved into EAX, minus five added, and eight bytes returned.
pub const RETURNS: [u8; 11] = [0xB8, 5, 0, 0, 0, 0x83, 0xC0, 0xFB, 0xC2, 8, 0];

/// The offset of the optional header, behind a DOS header of 64 bytes and a file header.
pub const OPTIONAL: usize = 88;

/// The offset of the header of the only section.
pub const SECTION: usize = 312;

/// The offset of the section's bytes.
pub const CODE: usize = 512;

/// Puts a piece in place of the bytes from an offset on, where there are as many.
pub fn put(file: &mut [u8], at: usize, piece: &[u8]) {
    if at > file.len() || piece.len() > file.len() - at {
        return;
    }
    let end = at + piece.len();
    file[at..end].copy_from_slice(piece);
}

/// Puts a word, least byte first.
pub fn put_word(file: &mut [u8], at: usize, word: u32) {
    put(file, at, &word.to_le_bytes());
}

/// Makes a driver of a file of zeros: its one section, at RVA 0x1000, is what is behind the headers
/// in the file, and begins with this code.
pub fn make_driver(file: &mut [u8], code: &[u8], span: u32, raw: u32, size: u32) {
    put(file, 0, b"MZ");
    put_word(file, 0x3C, 64);
    put(file, 64, b"PE\0\0\x4C\x01\x01\x00");
    put(file, 84, &224u16.to_le_bytes());
    put(file, OPTIONAL, &0x10Bu16.to_le_bytes());
    put_word(file, OPTIONAL + 16, 0x1000);
    put_word(file, OPTIONAL + 28, 0x8010_0000);
    put_word(file, OPTIONAL + 56, size);
    put_word(file, OPTIONAL + 60, 0x200);
    put_word(file, OPTIONAL + 92, 16);
    put(file, SECTION, b".text");
    put_word(file, SECTION + 8, span);
    put_word(file, SECTION + 12, 0x1000);
    put_word(file, SECTION + 16, raw);
    put_word(file, SECTION + 20, 512);
    put_word(file, SECTION + 36, 0x6000_0020);
    put(file, CODE, code);
}

/// Makes the small driver of this code, in a file of 1,024 bytes: its section has 11 bytes.
pub fn make_small_driver(file: &mut [u8], code: &[u8]) {
    make_driver(file, code, 11, 512, 0x2000);
}

/// Has the small driver import `NdisMFooBar` from ndis.sys: its section gets 0x80 bytes, and has the
/// import directory at RVA 0x1020.
pub fn add_import(file: &mut [u8]) {
    put_word(file, SECTION + 8, 0x80);
    put_word(file, OPTIONAL + 96 + 8, 0x1020);
    put_word(file, CODE + 0x20, 0x1048);
    put_word(file, CODE + 0x2C, 0x1060);
    put_word(file, CODE + 0x30, 0x1058);
    put_word(file, CODE + 0x48, 0x106A);
    put(file, CODE + 0x60, b"ndis.sys");
    put(file, CODE + 0x6C, b"NdisMFooBar");
}

/// How many imports the largest driver has.
pub const MOST_IMPORTS: u32 = 4096;

/// The bytes of the largest driver's file.
pub const MOST_BYTES: usize = 0x40_0000;

/// Makes the largest driver, in a file of 4 MiB: its section has 4,096 imports, all of `Ndis` from
/// ndis.sys. Its import directory is at RVA 0x1020, its thunks at 0x2000, its slots at 0x7000 and
/// the names at 0x1060.
pub fn make_large_driver(file: &mut [u8]) {
    make_driver(file, &RETURNS, 0x3F_F000 - 0x200, 0x3F_FE00, 0x40_0000);
    put_word(file, OPTIONAL + 96 + 8, 0x1020);
    put_word(file, CODE + 0x20, 0x2000);
    put_word(file, CODE + 0x2C, 0x1060);
    put_word(file, CODE + 0x30, 0x7000);
    put(file, CODE + 0x60, b"ndis.sys");
    put(file, CODE + 0x72, b"Ndis");
    for i in 0..MOST_IMPORTS as usize {
        put_word(file, CODE + 0x1000 + 4 * i, 0x1070);
    }
}

/// An INF file of one model.
pub const INF: &[u8] = b"[Version]
Signature=\"$Windows NT$\"
[Manufacturer]
%M%=Models
[Models]
\"NE2000\" = Ne.Inst, *PNP80D6
[Ne.Inst]
AddReg=Ne.Reg
[Ne.Reg]
HKR,,BusType,0,\"1\"
HKR,Ndi\\params\\IoBaseAddress,default,0,\"300\"
HKR,,Speed,0x00010001,10
[Strings]
M=\"Acme\"
";
