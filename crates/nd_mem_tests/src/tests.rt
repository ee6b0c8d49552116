ghost use Rattle.std.specs.Prelude.{◌≤◌};

use nd_base::Addr;
use nd_mem::{MemFault, Memory, Purpose, RegionRefusal, Rights};
use std::alloc::Global;

const ALL: Rights = Rights {
    read: true,
    write: true,
    execute: true,
};

const READ_ONLY: Rights = Rights {
    read: true,
    write: false,
    execute: false,
};

/// A piece of 64 KiB.
static PIECE: [u8; 65536] = [0xA5; 65536];

/// Whether `len` bytes could be added.
fn adds(alloc: Global, memory: &mut Memory, at: u32, len: u32, rights: Rights) -> bool {
    memory.add_region(alloc, Addr(at), len, rights).is_ok()
}

/// Why a region is refused.
fn refusal(alloc: Global, memory: &mut Memory, at: u32, len: u32) -> Option<RegionRefusal> {
    memory.add_region(alloc, Addr(at), len, ALL).err()
}

fn writes(memory: &mut Memory, at: u32, bytes: &[u8]) -> bool {
    memory.write(Addr(at), bytes).is_ok()
}

fn places(memory: &mut Memory, at: u32, bytes: &[u8]) -> bool {
    memory.place(Addr(at), bytes).is_ok()
}

/// The four bytes from an address on.
fn four_at(memory: &Memory, at: u32) -> Result<[u8; 4], MemFault> {
    let mut out = [9; 4];
    memory.read(Addr(at), &mut out)?;
    Ok(out)
}

/// Whether the piece stands there.
fn holds_piece(memory: &Memory, at: u32) -> bool {
    let mut out = [0; 65536];
    memory.read(Addr(at), &mut out).is_ok() && out[..] == PIECE[..]
}

/// How many bytes can be executed, and the first two of them.
fn fetched(memory: &Memory, at: u32) -> Result<(usize, u8, u8), MemFault> {
    let mut code = [9; 15];
    let count = memory.fetch(Addr(at), &mut code)?;
    Ok((count, code[0], code[1]))
}

/// Writes the piece into each 64 KiB from `at` on, to the end of 8 MiB.
fn fills(memory: &mut Memory, at: u32) -> bool
    requires { at ≤ 0xF0000000 }
{
    for n in 0..128 {
        if memory.write(Addr(at + n * 0x1_0000), &PIECE).is_err() {
            return false;
        }
    }
    true
}

/// Adds so many regions of 16 bytes, each behind the last one.
fn adds_in_a_row(alloc: Global, memory: &mut Memory, at: u32, count: u16) -> bool
    requires { at ≤ 0xF0000000 }
{
    for n in 0..u32::from(count) {
        if !adds(alloc, memory, at + 16 * n, 16, ALL) {
            return false;
        }
    }
    true
}

#[test]
fn a_write_goes_on_in_the_next_region(rt: HostRuntime) {
    let mut memory = Memory::new(rt.alloc());
    let written = adds(rt.alloc(), &mut memory, 0x1010, 16, ALL)
        && adds(rt.alloc(), &mut memory, 0x1000, 16, ALL)
        && writes(&mut memory, 0x100E, &[1, 2, 3, 4])
        && four_at(&memory, 0x100D) == Ok([0, 1, 2, 3])
        && four_at(&memory, 0x100F) == Ok([2, 3, 4, 0]);
    assert!(rt; written);
}

#[test]
fn regions_without_bytes_take_nothing(rt: HostRuntime) {
    let mut memory = Memory::new(rt.alloc());
    let written = adds(rt.alloc(), &mut memory, 0x1000, 16, ALL)
        && adds(rt.alloc(), &mut memory, 0x1008, 0, READ_ONLY)
        && adds(rt.alloc(), &mut memory, 0x1010, 0, READ_ONLY)
        && adds(rt.alloc(), &mut memory, 0x1010, 16, ALL)
        && adds(rt.alloc(), &mut memory, 0x0FF0, 16, ALL)
        && writes(&mut memory, 0x1007, &[1, 2, 3, 4])
        && writes(&mut memory, 0x0FFE, &[5, 6, 7, 8])
        && four_at(&memory, 0x1007) == Ok([1, 2, 3, 4])
        && four_at(&memory, 0x0FFE) == Ok([5, 6, 7, 8])
        && four_at(&memory, 0x101D) == Err(MemFault::Unmapped(Addr(0x1020)));
    assert!(rt; written);
}

#[test]
fn a_refused_write_changes_nothing(rt: HostRuntime) {
    let mut memory = Memory::new(rt.alloc());
    let kept = adds(rt.alloc(), &mut memory, 0x1000, 4, ALL)
        && adds(rt.alloc(), &mut memory, 0x1004, 4, READ_ONLY)
        && memory.write(Addr(0x1002), &[1, 2, 3, 4]) == Err(MemFault::NotWritable(Addr(0x1004)))
        && four_at(&memory, 0x1002) == Ok([0; 4])
        && places(&mut memory, 0x1002, &[1, 2, 3, 4])
        && four_at(&memory, 0x1002) == Ok([1, 2, 3, 4]);
    assert!(rt; kept);
}

#[test]
fn addresses_wrap(rt: HostRuntime) {
    let mut memory = Memory::new(rt.alloc());
    let refused = adds(rt.alloc(), &mut memory, 0, 4, ALL)
        && four_at(&memory, 0xFFFF_FFFF) == Err(MemFault::Unmapped(Addr(0xFFFF_FFFF)))
        && four_at(&memory, 2) == Err(MemFault::Unmapped(Addr(4)));
    assert!(rt; refused);
}

#[test]
fn a_fetch_goes_up_to_what_cannot_be_executed(rt: HostRuntime) {
    let mut memory = Memory::new(rt.alloc());
    let read = adds(rt.alloc(), &mut memory, 0x2000, 18, ALL)
        && adds(rt.alloc(), &mut memory, 0x2012, 2, ALL)
        && adds(rt.alloc(), &mut memory, 0x2014, 4, READ_ONLY)
        && places(&mut memory, 0x2011, &[0xC3, 0x90, 7])
        && fetched(&memory, 0x2000) == Ok((15, 0, 0))
        && fetched(&memory, 0x2011) == Ok((3, 0xC3, 0x90))
        && fetched(&memory, 0x2014) == Err(MemFault::NotExecutable(Addr(0x2014)));
    assert!(rt; read);
}

#[test]
fn a_fault_is_found_without_an_access(rt: HostRuntime) {
    let mut memory = Memory::new(rt.alloc());
    let found = adds(rt.alloc(), &mut memory, 0x1000, 4, ALL)
        && adds(rt.alloc(), &mut memory, 0x1004, 4, READ_ONLY)
        && memory.fault(Purpose::Read, Addr(0x1000), 8).is_none()
        && memory.fault(Purpose::Place, Addr(0x1007), 1).is_none()
        && memory.fault(Purpose::Write, Addr(0x1002), 0xFFFF_FFFF)
            == Some(MemFault::NotWritable(Addr(0x1004)))
        && memory.fault(Purpose::Execute, Addr(0x1000), 5)
            == Some(MemFault::NotExecutable(Addr(0x1004)))
        && memory.fault(Purpose::Read, Addr(0x1000), 9) == Some(MemFault::Unmapped(Addr(0x1008)))
        && memory.fault(Purpose::Read, Addr(0x1008), 0).is_none();
    assert!(rt; found);
}

#[test]
fn regions_are_apart_and_low(rt: HostRuntime) {
    let mut memory = Memory::new(rt.alloc());
    let refused = adds(rt.alloc(), &mut memory, 0x1000, 16, ALL)
        && refusal(rt.alloc(), &mut memory, 0x0FF8, 32)
            == Some(RegionRefusal::Overlaps(Addr(0x1000)))
        && refusal(rt.alloc(), &mut memory, 0x1008, 32)
            == Some(RegionRefusal::Overlaps(Addr(0x1008)))
        && refusal(rt.alloc(), &mut memory, 0xEFFF_FFFF, 2) == Some(RegionRefusal::High)
        && adds(rt.alloc(), &mut memory, 0xEFFF_FFFF, 1, ALL)
        && memory.region_refusal(Addr(0x1010), 16).is_none()
        && four_at(&memory, 0x1010) == Err(MemFault::Unmapped(Addr(0x1010)));
    memory.is_low();
    assert!(rt; refused);
}

#[test]
fn a_region_of_8_mib_is_written_and_read(rt: HostRuntime) {
    let mut memory = Memory::new(rt.alloc());
    let written = adds(rt.alloc(), &mut memory, 0x8100_0000, 0x80_0000, ALL)
        && four_at(&memory, 0x817F_FFFC) == Ok([0; 4])
        && fills(&mut memory, 0x8100_0000)
        && holds_piece(&memory, 0x8100_0000)
        && holds_piece(&memory, 0x817F_0000)
        && four_at(&memory, 0x817F_FFFD) == Err(MemFault::Unmapped(Addr(0x8180_0000)));
    assert!(rt; written);
}

#[test]
fn a_run_goes_over_4096_regions(rt: HostRuntime) {
    let mut memory = Memory::new(rt.alloc());
    let written = adds_in_a_row(rt.alloc(), &mut memory, 0x4000_0000, 4096)
        && writes(&mut memory, 0x4000_0000, &PIECE)
        && holds_piece(&memory, 0x4000_0000)
        && memory.fault(Purpose::Write, Addr(0x4000_0000), 65_537)
            == Some(MemFault::Unmapped(Addr(0x4001_0000)));
    assert!(rt; written);
}
