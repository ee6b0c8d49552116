ghost use Rattle.std.specs.Prelude.{◌≤◌, ◌<◌, ◌^◌};

use nd_base::{Addr, Bytes, Layout};
use nd_mem::{MemFault, Memory, Rights};
use packet_chain::{ChainFault, chain_bytes};
use std::alloc::Global;

/// One region of 64 KiB, with a packet at its start, buffers behind it and bytes in its upper half.
const FIRST: u32 = 0x1000;

const PAST: u32 = 0x1_1000;

const BUFFERS: u32 = 0x2000;

const BYTES: u32 = 0x8000;

fn memory(alloc: Global) -> Option<Memory> {
    let rights = Rights {
        read: true,
        write: true,
        execute: false,
    };
    let mut memory = Memory::new(alloc);
    if memory
        .add_region(alloc, Addr(FIRST), PAST - FIRST, rights)
        .is_err()
    {
        return None;
    }
    Some(memory)
}

fn put(memory: &mut Memory, at: u32, number: u32) -> bool {
    memory.write(Addr(at), &number.to_le_bytes()).is_ok()
}

/// Writes the fields of a buffer at their usual offsets.
fn put_buffer(memory: &mut Memory, at: u32, next: u32, mapped: u32, count: u32) -> bool
    requires { at < 2 ^ 31 }
{
    put(memory, at, next) && put(memory, at + 12, mapped) && put(memory, at + 20, count)
}

/// Writes a chain of buffers of so many bytes each.
fn put_chain(memory: &mut Memory, buffers: u32, count: u32) -> bool
    requires { buffers ≤ 100 }
{
    let head = if buffers == 0 { 0 } else { BUFFERS };
    let mut written = put(memory, FIRST + 8, head);
    for k in 0..buffers {
        let next = if k + 1 == buffers {
            0
        } else {
            BUFFERS + 32 * (k + 1)
        };
        written = written && put_buffer(memory, BUFFERS + 32 * k, next, BYTES, count);
    }
    written
}

/// How long the packet's frame is.
fn length(alloc: Global, memory: &Memory) -> Option<usize> {
    match chain_bytes(alloc, Addr(FIRST), &Layout::usual(), memory) {
        Ok(frame) => Some(frame.len()),
        Err(_) => None,
    }
}

/// Why it has none.
fn fault(alloc: Global, memory: &Memory) -> Option<ChainFault> {
    chain_bytes(alloc, Addr(FIRST), &Layout::usual(), memory).err()
}

/// The length of the frame of a chain, where there is one.
fn length_of(alloc: Global, buffers: u32, count: u32) -> Option<usize>
    requires { buffers ≤ 100 }
{
    let mut memory = memory(alloc)?;
    if !put_chain(&mut memory, buffers, count) {
        return None;
    }
    length(alloc, &memory)
}

fn fault_of(alloc: Global, buffers: u32, count: u32) -> Option<ChainFault>
    requires { buffers ≤ 100 }
{
    let mut memory = memory(alloc)?;
    if !put_chain(&mut memory, buffers, count) {
        return None;
    }
    fault(alloc, &memory)
}

#[test]
fn chains_have_at_most_64_buffers(rt: HostRuntime) {
    let alloc = rt.alloc();
    assert!(rt; fault_of(alloc, 0, 20) == Some(ChainFault::Length));
    assert!(rt; length_of(alloc, 1, 20) == Some(20));
    assert!(rt; length_of(alloc, 64, 20) == Some(1280));
    assert!(rt; fault_of(alloc, 65, 20) == Some(ChainFault::Loop));
}

#[test]
fn frames_have_14_to_1514_bytes(rt: HostRuntime) {
    let alloc = rt.alloc();
    assert!(rt; fault_of(alloc, 1, 13) == Some(ChainFault::Length));
    assert!(rt; length_of(alloc, 1, 14) == Some(14));
    assert!(rt; length_of(alloc, 2, 7) == Some(14));
    assert!(rt; length_of(alloc, 2, 757) == Some(1514));
    assert!(rt; fault_of(alloc, 3, 505) == Some(ChainFault::Length));
    assert!(rt; fault_of(alloc, 2, 0x4000) == Some(ChainFault::Length));
}

/// Whether a buffer that names itself is a loop.
fn itself_is_a_loop(alloc: Global) -> Option<bool> {
    let mut memory = memory(alloc)?;
    let written = put(&mut memory, FIRST + 8, BUFFERS)
        && put_buffer(&mut memory, BUFFERS, BUFFERS, BYTES, 20);
    Some(written && fault(alloc, &memory) == Some(ChainFault::Loop))
}

/// Whether bytes that run over the region's end are a fault there, also where there are too many.
fn end_is_a_fault(alloc: Global, count: u32) -> Option<bool> {
    let mut memory = memory(alloc)?;
    let written = put(&mut memory, FIRST + 8, BUFFERS)
        && put_buffer(&mut memory, BUFFERS, 0, PAST - 4, count);
    let unmapped = ChainFault::Fault(MemFault::Unmapped(Addr(PAST)));
    Some(written && fault(alloc, &memory) == Some(unmapped))
}

/// Whether a packet that can't be read is a fault at its head.
fn no_packet_is_a_fault(alloc: Global) -> Option<bool> {
    let memory = memory(alloc)?;
    let unmapped = ChainFault::Fault(MemFault::Unmapped(Addr(0x2_0008)));
    let answer = chain_bytes(alloc, Addr(0x2_0000), &Layout::usual(), &memory).err();
    Some(answer == Some(unmapped))
}

#[test]
fn loops_and_faults_are_told(rt: HostRuntime) {
    let alloc = rt.alloc();
    assert!(rt; itself_is_a_loop(alloc) == Some(true));
    assert!(rt; end_is_a_fault(alloc, 20) == Some(true));
    assert!(rt; end_is_a_fault(alloc, 5) == Some(true));
    assert!(rt; end_is_a_fault(alloc, 0xFFFF_FFFF) == Some(true));
    assert!(rt; no_packet_is_a_fault(alloc) == Some(true));
}

/// The frame of two buffers, of "headers, " and "and bytes".
fn joined(alloc: Global) -> Option<Bytes> {
    let mut memory = memory(alloc)?;
    let written = memory.write(Addr(BYTES), b"and bytes").is_ok()
        && memory.write(Addr(BYTES + 0x100), b"headers, ").is_ok()
        && put(&mut memory, FIRST + 8, BUFFERS)
        && put_buffer(&mut memory, BUFFERS, BUFFERS + 32, BYTES + 0x100, 9)
        && put_buffer(&mut memory, BUFFERS + 32, 0, BYTES, 9);
    if !written {
        return None;
    }
    chain_bytes(alloc, Addr(FIRST), &Layout::usual(), &memory).ok()
}

fn is_joined(alloc: Global) -> bool {
    match joined(alloc) {
        Some(frame) => frame.as_slice() == b"headers, and bytes".as_slice(),
        None => false,
    }
}

#[test]
fn bytes_of_two_buffers_are_joined(rt: HostRuntime) {
    assert!(rt; is_joined(rt.alloc()));
}
