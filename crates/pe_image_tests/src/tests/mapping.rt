//! An image is mapped, and its bytes are read back.

use crate::tests::files::meeting;
use nd_base::Addr;
use nd_mem::{MemFault, Memory, RegionRefusal, Rights};
use pe_image::{Image, ImportAddresses};
use std::alloc::Global;

const BASE: Addr = Addr(0x8010_0000);

fn image(alloc: Global) -> Option<Image> {
    let file = meeting(alloc)?;
    Image::read(alloc, &file.bytes).ok()
}

fn addresses(alloc: Global) -> Option<ImportAddresses> {
    let mut addresses = ImportAddresses::new(alloc);
    addresses.push(Addr(0x1122_3344)).ok()?;
    addresses.push(Addr(0x5566_7788)).ok()?;
    Some(addresses)
}

/// Maps an image, where there are as many addresses as it has imports.
pub fn map(
    alloc: Global,
    image: &Image,
    base: Addr,
    slots: &ImportAddresses,
    memory: &mut Memory,
) -> Option<Result<(), RegionRefusal>> {
    if slots.len() != image.imports().len() {
        return None;
    }
    Some(image.map(alloc, base, slots, memory))
}

/// Maps the image whose relocations and slots meet.
fn map_meeting(
    alloc: Global,
    base: Addr,
    memory: &mut Memory,
) -> Option<Result<(), RegionRefusal>> {
    let slots = addresses(alloc)?;
    let image = image(alloc)?;
    map(alloc, &image, base, &slots, memory)
}

/// Whether the image, mapped at an address, has these bytes at another.
fn has_bytes(alloc: Global, base: Addr, at: Addr, expected: &[u8]) -> bool {
    let mut memory = Memory::new(alloc);
    let mut found = [0xFF; 8];
    let out = &mut found[..expected.len().min(8)];
    map_meeting(alloc, base, &mut memory) == Some(Ok(()))
        && memory.read(at, out).is_ok()
        && *out == *expected
}

#[test]
fn a_relocated_word_is_moved(rt: HostRuntime) {
    let word = [0, 0x10, 0x10, 0x80];
    assert!(rt; has_bytes(rt.alloc(), BASE, Addr(0x8010_1FFC), &word));
}

#[test]
fn relocations_that_meet_add_up_in_order(rt: HostRuntime) {
    let bytes = [0x00, 0x80, 0x0F, 0x80, 0x0F, 0x80, 7];
    assert!(rt; has_bytes(rt.alloc(), Addr(0x8010_8000), Addr(0x8010_9000), &bytes));
}

#[test]
fn the_later_slot_stands(rt: HostRuntime) {
    let bytes = [0x44, 0x33, 0x88, 0x77, 0x66, 0x55];
    assert!(rt; has_bytes(rt.alloc(), BASE, Addr(0x8010_1010), &bytes));
}

#[test]
fn zeros_stand_behind_what_the_file_has(rt: HostRuntime) {
    let alloc = rt.alloc();
    assert!(rt; has_bytes(alloc, BASE, BASE, b"MZ\0\0"));
    assert!(rt; has_bytes(alloc, BASE, Addr(0x8010_23FE), &[8, 9, 0, 0]));
}

const READ_ONLY: Rights = Rights {
    read: true,
    write: false,
    execute: false,
};

/// Whether mapping is refused so, and maps nothing, where a byte is mapped at 0x80102008.
fn is_refused(alloc: Global, base: Addr, refusal: RegionRefusal) -> bool {
    let mut memory = Memory::new(alloc);
    memory
        .add_region(alloc, Addr(0x8010_2008), 1, READ_ONLY)
        .is_ok()
        && map_meeting(alloc, base, &mut memory) == Some(Err(refusal))
        && memory.read(base, &mut [0]) == Err(MemFault::Unmapped(base))
}

#[test]
fn a_refusal_changes_nothing(rt: HostRuntime) {
    let alloc = rt.alloc();
    let overlaps = RegionRefusal::Overlaps(Addr(0x8010_2008));
    assert!(rt; is_refused(alloc, BASE, overlaps));
    assert!(rt; is_refused(alloc, Addr(0xEFFF_F000), RegionRefusal::High));
}

#[test]
fn addresses_are_kept_in_order(rt: HostRuntime) {
    let expected = [0x1122_3344, 0x5566_7788];
    assert!(rt; addresses(rt.alloc()).is_some_and(|slots| slots.as_slice() == expected.as_slice()));
}
