//! What is read of an image.

use crate::tests::files::{File, importing, relocated, sample};
use nd_mem::Rights;
use pe_image::{Image, Import, Section};
use std::alloc::Global;

fn read(alloc: Global, file: Option<File>) -> Option<Image> {
    let file = file?;
    Image::read(alloc, &file.bytes).ok()
}

fn is_sample(image: &Image) -> bool {
    const TEXT: Section = Section {
        name: *b".text\0\0\0",
        rva: 0x1000,
        span: 512,
        raw: 512,
        rights: Rights {
            read: true,
            write: false,
            execute: true,
        },
    };
    let numbers = [image.base(), image.entry(), image.size()];
    numbers == [0x8010_0000, 0x1000, 0x2000]
        && image.sections() == [TEXT].as_slice()
        && image.relocs().is_empty()
        && image.imports().is_empty()
}

#[test]
fn reads_a_driver(rt: HostRuntime) {
    let alloc = rt.alloc();
    assert!(rt; read(alloc, sample(alloc)).is_some_and(|image| is_sample(&image)));
}

fn is_relocated(image: &Image) -> bool {
    image.relocs() == [0x1FFC].as_slice() && image.base() == 0x0001_0000
}

#[test]
fn reads_relocations(rt: HostRuntime) {
    let alloc = rt.alloc();
    assert!(rt; read(alloc, relocated(alloc)).is_some_and(|image| is_relocated(&image)));
}

type Expected = (&'static [u8], &'static [u8], u32);

fn is_import(import: &Import, expected: &Expected) -> bool {
    let (dll, name, slot) = *expected;
    import.dll.as_slice() == dll && import.name.as_slice() == name && import.slot == slot
}

fn has_imports(image: &Image) -> bool {
    const EXPECTED: [Expected; 3] = [
        (b"NDIS.SYS", b"Aa", 0x2060),
        (b"NDIS.SYS", b"Bb", 0x2064),
        (b"HAL.dll", b"Cc", 0x2070),
    ];
    let imports = image.imports();
    imports.len() == 3
        && imports
            .iter()
            .zip(EXPECTED.iter())
            .all(|(import, expected)| is_import(import, expected))
}

#[test]
fn reads_imports(rt: HostRuntime) {
    let alloc = rt.alloc();
    assert!(rt; read(alloc, importing(alloc)).is_some_and(|image| has_imports(&image)));
}
