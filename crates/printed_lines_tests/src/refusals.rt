//! The line of each refusal.

use inf_file::ParamRefusal;
use inf_text::InfRefusal;
use nd_base::{Bytes, OutOfMemory};
use pe_image::PeRefusal;
use printed_lines::{image_line, inf_line, parameters_line, unknown_import_line};

fn reads(line: Result<Bytes, OutOfMemory>, want: &[u8]) -> bool {
    match line {
        Ok(line) => line.as_slice() == want,
        Err(_) => false,
    }
}

#[test]
fn of_an_image(rt: HostRuntime) {
    let rows: [(PeRefusal, &[u8]); 14] = [
        (PeRefusal::OutOfMemory, b"memory\n"),
        (PeRefusal::TooLarge, b"image too-large\n"),
        (PeRefusal::Short(4_294_967_295), b"image short 4294967295\n"),
        (PeRefusal::NotPe, b"image not-pe\n"),
        (PeRefusal::NotI386, b"image not-i386\n"),
        (PeRefusal::NotPe32, b"image not-pe32\n"),
        (PeRefusal::BadSection(0), b"image bad-section 0\n"),
        (PeRefusal::Overlap(65_535), b"image overlap 65535\n"),
        (PeRefusal::BadEntry, b"image bad-entry\n"),
        (PeRefusal::BadDirectory(5), b"image bad-directory 5\n"),
        (PeRefusal::BadReloc(8200), b"image bad-reloc 8200\n"),
        (PeRefusal::RelocsStripped, b"image relocs-stripped\n"),
        (PeRefusal::BadImport(10), b"image bad-import 10\n"),
        (PeRefusal::Ordinal(100), b"image ordinal 100\n"),
    ];
    for (refusal, want) in rows {
        assert!(rt; reads(image_line(rt.alloc(), refusal), want));
    }
}

#[test]
fn of_an_inf(rt: HostRuntime) {
    let rows: [(InfRefusal, &[u8]); 4] = [
        (InfRefusal::OutOfMemory, b"memory\n"),
        (InfRefusal::TooLong, b"inf too-long\n"),
        (InfRefusal::BadText(1_048_575), b"inf bad-text 1048575\n"),
        (InfRefusal::Line(1), b"inf line 1\n"),
    ];
    for (refusal, want) in rows {
        assert!(rt; reads(inf_line(rt.alloc(), refusal), want));
    }
}

#[test]
fn of_parameters(rt: HostRuntime) {
    let rows: [(ParamRefusal, &[u8]); 6] = [
        (ParamRefusal::OutOfMemory, b"memory\n"),
        (ParamRefusal::NoVersion, b"inf no-version\n"),
        (ParamRefusal::NoModel, b"inf no-model\n"),
        (ParamRefusal::NoInstall, b"inf no-install\n"),
        (ParamRefusal::NoString(12), b"inf no-string 12\n"),
        (ParamRefusal::BadValue(9), b"inf bad-value 9\n"),
    ];
    for (refusal, want) in rows {
        assert!(rt; reads(parameters_line(rt.alloc(), refusal), want));
    }
}

/// `image unknown-import`, the longest name that an image can import, and LF.
fn longest_import() -> [u8; 277] {
    let mut line = [b'A'; 277];
    line[..21].copy_from_slice(b"image unknown-import ");
    line[276] = b'\n';
    line
}

#[test]
fn of_an_import(rt: HostRuntime) {
    let line = unknown_import_line(rt.alloc(), b"NdisMFooBar");
    assert!(rt; reads(line, b"image unknown-import NdisMFooBar\n"));
    let line = unknown_import_line(rt.alloc(), &[b'A'; 255]);
    assert!(rt; reads(line, &longest_import()));
}
