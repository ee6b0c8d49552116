//! Files by hand, as pcap-savefile(5) lays them out, and what becomes of them.

use frame_wire::{WireRefusal, read_frames};
use std::alloc::Global;

/// Magic number, version 2.4, no zone, no accuracy, a snap length of 65,535, link type 1.
const LITTLE: [u8; 24] = [
    0xd4, 0xc3, 0xb2, 0xa1, 2, 0, 4, 0, 0, 0, 0, 0, 0, 0, 0, 0, 0xff, 0xff, 0, 0, 1, 0, 0, 0,
];

/// The same on a big-endian machine, with another version, a zone and an accuracy.
const BIG: [u8; 24] = [
    0xa1, 0xb2, 0xc3, 0xd4, 0, 9, 0, 9, 0, 0, 0x0e, 0x10, 0, 0, 0, 7, 0, 0, 0, 0, 0, 0, 0, 1,
];

/// Seconds, microseconds, the length in the file and the length on the wire.
type Numbers = [u32; 4];

fn put_number(file: &mut Vec<u8>, is_big: bool, number: u32) -> bool {
    if is_big {
        file.extend_from_slice(&number.to_be_bytes()).is_ok()
    } else {
        file.extend_from_slice(&number.to_le_bytes()).is_ok()
    }
}

/// Puts an entry whose frame is all sevens.
fn put_entry(file: &mut Vec<u8>, is_big: bool, numbers: Numbers) -> bool {
    for number in numbers {
        if !put_number(file, is_big, number) {
            return false;
        }
    }
    for _ in 0..numbers[2] {
        if file.push(7).is_err() {
            return false;
        }
    }
    true
}

/// Whether a little-endian file of these entries and a few zeros has the refusal, or none.
fn answers(alloc: Global, entries: &[Numbers], zeros: &[u8], want: Option<WireRefusal>) -> bool {
    let mut file = Vec::new(alloc);
    if file.extend_from_slice(&LITTLE).is_err() {
        return false;
    }
    for numbers in entries {
        if !put_entry(&mut file, false, *numbers) {
            return false;
        }
    }
    if file.extend_from_slice(zeros).is_err() {
        return false;
    }
    read_frames(alloc, &file).err() == want
}

/// Whether a file with this header and no entry has the refusal, or none.
fn header_answers(alloc: Global, header: &[u8], want: Option<WireRefusal>) -> bool {
    read_frames(alloc, header).err() == want
}

#[test]
fn headers(rt: HostRuntime) {
    let alloc = rt.alloc();
    assert!(rt; header_answers(alloc, &LITTLE, None));
    assert!(rt; header_answers(alloc, &BIG, None));
    let bad = Some(WireRefusal::BadHeader);
    assert!(rt; header_answers(alloc, &[], bad));
    assert!(rt; header_answers(alloc, &LITTLE[..23], bad));
    let mut nanoseconds = LITTLE;
    nanoseconds[0] = 0x4d;
    nanoseconds[1] = 0x3c;
    assert!(rt; header_answers(alloc, &nanoseconds, bad));
    let mut linux_cooked = BIG;
    linux_cooked[23] = 113;
    let other = Some(WireRefusal::LinkType(113));
    assert!(rt; header_answers(alloc, &linux_cooked, other));
    let mut with_checksums = LITTLE;
    with_checksums[23] = 0x24;
    let other = Some(WireRefusal::LinkType(0x2400_0001));
    assert!(rt; header_answers(alloc, &with_checksums, other));
}

#[test]
fn entries(rt: HostRuntime) {
    let good = [5, 6, 14, 14];
    let wrong = Some(WireRefusal::Length(24));
    for (numbers, want) in [
        ([5, 6, 13, 13], wrong),
        (good, None),
        ([5, 6, 1514, 1514], None),
        ([5, 6, 1515, 1515], wrong),
        ([5, 6, 60, 61], wrong),
    ] {
        assert!(rt; answers(rt.alloc(), &[numbers], &[], want));
    }
    let cut = Some(WireRefusal::CutShort(24));
    assert!(rt; answers(rt.alloc(), &[], &[0; 10], cut));
    let cut = Some(WireRefusal::CutShort(54));
    assert!(rt; answers(rt.alloc(), &[good], &[255; 16], cut));
    assert!(rt; answers(rt.alloc(), &[good, good], &[], None));
    let back = Some(WireRefusal::Backwards(84));
    let entries = [good, good, [5, 5, 14, 14], [1, 0, 13, 13]];
    assert!(rt; answers(rt.alloc(), &entries, &[], back));
}

/// Whether a file of two entries has these stamps and lengths.
fn has_two(
    alloc: Global,
    header: &[u8],
    is_big: bool,
    numbers: &[Numbers],
    want: &[(u64, usize)],
) -> bool {
    let mut file = Vec::new(alloc);
    if file.extend_from_slice(header).is_err() {
        return false;
    }
    for entry in numbers {
        if !put_entry(&mut file, is_big, *entry) {
            return false;
        }
    }
    match read_frames(alloc, &file) {
        Ok(frames) => frames
            .iter()
            .map(|frame| (frame.stamp, frame.bytes.len()))
            .eq(want.iter().copied()),
        Err(_) => false,
    }
}

#[test]
fn either_order(rt: HostRuntime) {
    // The second is 1 s and 999,751 us behind the first; microseconds may be above a million.
    let numbers = [[2, 250, 14, 14], [4, 1, 15, 15], [4, 1_000_002, 16, 16]];
    let want = [(1_000_000, 14), (2_999_751, 15), (3_999_752, 16)];
    assert!(rt; has_two(rt.alloc(), &LITTLE, false, &numbers, &want));
    assert!(rt; has_two(rt.alloc(), &BIG, true, &numbers, &want));
}
