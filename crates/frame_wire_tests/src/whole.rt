//! Files of no frame, of one, and of as many and as long ones as a file can have.

use frame_wire::{Arrival, WireRefusal, read_frames, write_frames};
use nd_base::Bytes;
use std::alloc::Global;

/// The length of the longest entry, a frame of 1,514 bytes with its header.
const LONGEST_ENTRY: usize = 1_530;

/// A file of no frame, as pcap-savefile(5) has it.
const EMPTY: [u8; 24] = [
    0xd4, 0xc3, 0xb2, 0xa1, 2, 0, 4, 0, 0, 0, 0, 0, 0, 0, 0, 0, 0xff, 0xff, 0, 0, 1, 0, 0, 0,
];

/// A file of one frame of 14 bytes at 5 s and 6 us, as pcap-savefile(5) has it.
const ONE: [u8; 54] = [
    0xd4, 0xc3, 0xb2, 0xa1, 2, 0, 4, 0, 0, 0, 0, 0, 0, 0, 0, 0, 0xff, 0xff, 0, 0, 1, 0, 0, 0, 5, 0,
    0, 0, 6, 0, 0, 0, 14, 0, 0, 0, 14, 0, 0, 0, 1, 2, 3, 4, 5, 6, 7, 8, 9, 10, 11, 12, 8, 0,
];

fn is_written_as(alloc: Global, frames: &[Arrival], want: &[u8]) -> bool {
    match write_frames(alloc, frames) {
        Ok(file) => file.as_slice() == want,
        Err(_) => false,
    }
}

/// Whether the file has the frame at the stamp.
fn is_one(alloc: Global, file: &[u8], stamp: u64, frame: &[u8]) -> bool {
    match read_frames(alloc, file) {
        Ok(frames) => frames.len() == 1
            && frames[0].stamp == stamp
            && frames[0].bytes.as_slice() == frame,
        Err(_) => false,
    }
}

fn writes_one(alloc: Global) -> bool {
    match Bytes::copy(alloc, &ONE[40..]) {
        Ok(bytes) => is_written_as(
            alloc,
            &[Arrival {
                stamp: 5_000_006,
                bytes,
            }],
            &ONE,
        ),
        Err(_) => false,
    }
}

#[test]
fn none_and_one(rt: HostRuntime) {
    assert!(rt; is_written_as(rt.alloc(), &[], &EMPTY));
    assert!(rt; is_one(rt.alloc(), &ONE, 1_000_000, &ONE[40..]));
    assert!(rt; writes_one(rt.alloc()));
}

/// Puts a file of the most and longest frames, a microsecond apart.
fn put_longest(file: &mut Vec<u8>) -> bool {
    let mut entry = [0xa5; LONGEST_ENTRY];
    entry[0..4].copy_from_slice(&1_u32.to_le_bytes());
    entry[8..12].copy_from_slice(&1_514_u32.to_le_bytes());
    entry[12..16].copy_from_slice(&1_514_u32.to_le_bytes());
    if file.extend_from_slice(&EMPTY).is_err() {
        return false;
    }
    for microseconds in 0..65_536_u32 {
        entry[4..8].copy_from_slice(&microseconds.to_le_bytes());
        if file.extend_from_slice(&entry).is_err() {
            return false;
        }
    }
    true
}

/// Whether so many bytes are written.
fn is_written(alloc: Global, frames: &[Arrival], len: usize) -> bool {
    match write_frames(alloc, frames) {
        Ok(file) => file.len() == len,
        Err(_) => false,
    }
}

/// Whether all frames are there, and as many bytes are written again.
fn are_all(alloc: Global, frames: &[Arrival], len: usize) -> bool {
    let stamps = (1_000_000_u64..1_065_536).eq(frames.iter().map(|frame| frame.stamp));
    let are_long = frames.iter().all(|frame| frame.bytes.len() == 1_514);
    stamps && are_long && is_written(alloc, frames, len)
}

fn reads_and_writes(alloc: Global, file: &[u8]) -> bool {
    match read_frames(alloc, file) {
        Ok(frames) => are_all(alloc, &frames, file.len()),
        Err(_) => false,
    }
}

#[test]
fn most_and_longest(rt: HostRuntime) {
    let mut file = Vec::new(rt.alloc());
    assert!(rt; put_longest(&mut file) && file.len() == 100_270_104);
    assert!(rt; reads_and_writes(rt.alloc(), &file));
    assert!(rt; file.push(0).is_ok());
    assert!(rt; read_frames(rt.alloc(), &file).err() == Some(WireRefusal::TooLong));
}

/// Puts 128 MiB of zeros.
fn put_zeros(file: &mut Vec<u8>) -> bool {
    for _ in 0..2048 {
        if file.extend_from_slice(&[0; 65_536]).is_err() {
            return false;
        }
    }
    true
}

#[test]
fn too_long(rt: HostRuntime) {
    let mut file = Vec::new(rt.alloc());
    assert!(rt; put_zeros(&mut file) && file.len() == 134_217_728);
    assert!(rt; read_frames(rt.alloc(), &file).err() == Some(WireRefusal::BadHeader));
    assert!(rt; file.push(0).is_ok());
    assert!(rt; read_frames(rt.alloc(), &file).err() == Some(WireRefusal::TooLong));
}
