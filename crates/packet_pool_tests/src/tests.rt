ghost use Rattle.std.specs.Prelude.{IfSome};
ghost use Rattle.std.specs.FinMap as map;
ghost use Rattle.packet_pool.specs.DescriptorBytes.{HasGuestPool};

use guest_map::POOL;
use nd_base::{Addr, Breach, Layout};
use nd_mem::{Memory, Rights, region_laws};
use packet_pool::{PoolRefusal, Pools};
use std::alloc::Global;

/// What a breach of the rule of live things is.
const BROKEN: Result<(), Breach> = Err(Breach(2));

/// Memory with the guest pool alone.
fn guest_memory(alloc: Global) -> Option<Memory>
    ensures { IfSome result (λ memory. HasGuestPool (map.get memory)) }
{
    region_laws();
    let rights = Rights {
        read: true,
        write: true,
        execute: false,
    };
    let mut memory = Memory::new(alloc);
    if memory
        .add_region(alloc, POOL.first, POOL.length, rights)
        .is_err()
    {
        return None;
    }
    Some(memory)
}

/// The number in four bytes of memory.
fn word(memory: &Memory, at: u32) -> Option<u32> {
    let mut four = [0; 4];
    memory.read(Addr(at), &mut four).ok()?;
    Some(u32::from_le_bytes(four))
}

/// A pool of four packets gives four, one behind the other, and no fifth.
fn four_of_four(alloc: Global, pools: &mut Pools, memory: &mut Memory) -> Option<bool>
    requires { HasGuestPool (map.get memory.old) }
{
    let layout = Layout::usual();
    let pool = pools.make_packets(alloc, 4).ok()?;
    let four = pools.alloc_packet(pool, &layout, memory) == Ok(Addr(0x8100_0000))
        && pools.alloc_packet(pool, &layout, memory) == Ok(Addr(0x8100_0080))
        && pools.alloc_packet(pool, &layout, memory) == Ok(Addr(0x8100_0100))
        && pools.alloc_packet(pool, &layout, memory) == Ok(Addr(0x8100_0180));
    let fifth = pools.alloc_packet(pool, &layout, memory) == Err(PoolRefusal::PoolFull);
    let freed = pools.free_packet(Addr(0x8100_0080)).is_ok();
    let again = pools.alloc_packet(pool, &layout, memory) == Ok(Addr(0x8100_0080));
    Some(pool == 0xE001_0000 && four && fifth && freed && again)
}

fn test_four(alloc: Global) -> Option<bool> {
    let mut pools = Pools::new(alloc).ok()?;
    let mut memory = guest_memory(alloc)?;
    four_of_four(alloc, &mut pools, &mut memory)
}

#[test]
fn a_pool_of_four_gives_no_fifth(rt: HostRuntime) {
    let passed = test_four(rt.alloc());
    assert!(rt; passed == Some(true));
}

/// A pool is freed where none of its descriptors is out, once; a buffer is no packet.
fn frees(alloc: Global, pools: &mut Pools, memory: &mut Memory) -> Option<bool>
    requires { HasGuestPool (map.get memory.old) }
{
    let layout = Layout::usual();
    let packets = pools.make_packets(alloc, 1).ok()?;
    let buffers = pools.make_buffers(alloc, 1).ok()?;
    let other = pools.alloc_packet(buffers, &layout, memory) == Err(PoolRefusal::NoPool);
    let buffer = pools
        .alloc_buffer(buffers, Addr(0x8123_4567), 100, &layout, memory)
        .ok()?;
    let refused = pools.free_packet(buffer) == BROKEN && pools.free_pool(buffers) == BROKEN;
    let freed = pools.free_buffer(buffer).is_ok() && pools.free_pool(buffers).is_ok();
    let gone = pools.free_buffer(buffer) == BROKEN && pools.free_pool(buffers) == BROKEN;
    let next = pools.make_buffers(alloc, 1).ok()?;
    Some(other && refused && freed && gone && buffers == packets + 1 && next == packets + 2)
}

fn test_frees(alloc: Global) -> Option<bool> {
    let mut pools = Pools::new(alloc).ok()?;
    let mut memory = guest_memory(alloc)?;
    frees(alloc, &mut pools, &mut memory)
}

#[test]
fn what_is_not_live_or_still_out_is_not_freed(rt: HostRuntime) {
    let passed = test_frees(rt.alloc());
    assert!(rt; passed == Some(true));
}

/// A packet on loan is not freed, and neither is its pool.
fn loan(alloc: Global, pools: &mut Pools, memory: &mut Memory) -> Option<bool>
    requires { HasGuestPool (map.get memory.old) }
{
    let pool = pools.make_packets(alloc, 2).ok()?;
    let packet = pools.alloc_packet(pool, &Layout::usual(), memory).ok()?;
    if !pools.has_packet(packet) || pools.has_buffer(packet) || pools.lent(packet) {
        return None;
    }
    pools.lend(packet);
    let kept = pools.lent(packet) && pools.free_packet(packet) == BROKEN;
    if !pools.has_packet(packet) {
        return None;
    }
    pools.unlend(packet);
    let back = !pools.lent(packet) && pools.free_packet(packet).is_ok();
    Some(kept && back && !pools.has_packet(packet) && pools.free_pool(pool).is_ok())
}

fn test_loan(alloc: Global) -> Option<bool> {
    let mut pools = Pools::new(alloc).ok()?;
    let mut memory = guest_memory(alloc)?;
    loan(alloc, &mut pools, &mut memory)
}

#[test]
fn a_packet_on_loan_is_not_freed(rt: HostRuntime) {
    let passed = test_loan(rt.alloc());
    assert!(rt; passed == Some(true));
}

fn counts(alloc: Global) -> Option<bool> {
    let mut pools = Pools::new(alloc).ok()?;
    let few = pools.make_packets(alloc, 0) == Err(PoolRefusal::Count)
        && pools.make_buffers(alloc, 4097) == Err(PoolRefusal::Count);
    Some(few && pools.make_packets(alloc, 4096).is_ok() && pools.make_buffers(alloc, 1).is_ok())
}

#[test]
fn a_pool_has_1_to_4096_descriptors(rt: HostRuntime) {
    let passed = counts(rt.alloc());
    assert!(rt; passed == Some(true));
}

/// The guest pool is filled; what one block leaves, another takes.
fn fills(alloc: Global) -> Option<bool> {
    let mut pools = Pools::new(alloc).ok()?;
    let empty = pools.alloc_block(0) == Ok(Addr(0x8100_0000));
    let behind = pools.alloc_block(17) == Ok(Addr(0x8100_0010));
    let rest = pools.alloc_block(0x80_0000 - 48) == Ok(Addr(0x8100_0030));
    let full = pools.alloc_block(1) == Err(PoolRefusal::NoRoom)
        && pools.make_packets(alloc, 1) == Err(PoolRefusal::NoRoom);
    let freed = pools.free_block(Addr(0x8100_0010)).is_ok();
    let again = pools.alloc_block(33) == Err(PoolRefusal::NoRoom)
        && pools.alloc_block(32) == Ok(Addr(0x8100_0010));
    let no_block = pools.free_block(Addr(0x8100_0020)) == BROKEN;
    Some(empty && behind && rest && full && freed && again && no_block)
}

#[test]
fn the_guest_pool_is_filled_to_its_end(rt: HostRuntime) {
    let passed = fills(rt.alloc());
    assert!(rt; passed == Some(true));
}

/// Whether the packet is as new: zeros, but for the offset 72 of its out-of-band part at 30.
fn is_new_packet(memory: &Memory, at: u32) -> bool {
    let mut new = true;
    for k in 0..32u32 {
        let offset = 4 * k;
        let number = if offset == 28 { 72 << 16 } else { 0 };
        new = new && word(memory, at.wrapping_add(offset)) == Some(number);
    }
    new
}

/// Where a buffer was, with its fields, in a pool that is no longer there.
fn former_buffer(alloc: Global, pools: &mut Pools, memory: &mut Memory) -> Option<Addr>
    requires { HasGuestPool (map.get memory.old) }
    ensures { HasGuestPool (map.get memory.new) }
{
    let pool = pools.make_buffers(alloc, 1).ok()?;
    let bytes = Addr(0xFFFF_FFFF);
    let buffer = pools
        .alloc_buffer(pool, bytes, 1514, &Layout::usual(), memory)
        .ok()?;
    pools.free_buffer(buffer).ok()?;
    pools.free_pool(pool).ok()?;
    Some(buffer)
}

/// A packet that is allocated where a buffer was is as new, and so it is where a packet was.
fn written_again(alloc: Global, pools: &mut Pools, memory: &mut Memory) -> Option<bool>
    requires { HasGuestPool (map.get memory.old) }
{
    let layout = Layout::usual();
    let buffer = former_buffer(alloc, pools, memory)?;
    let over = !is_new_packet(memory, buffer.0);
    let pool = pools.make_packets(alloc, 1).ok()?;
    let packet = pools.alloc_packet(pool, &layout, memory).ok()?;
    let first = packet == buffer && is_new_packet(memory, packet.0);
    pools.free_packet(packet).ok()?;
    let again = pools.alloc_packet(pool, &layout, memory).ok()?;
    Some(over && first && again == packet && is_new_packet(memory, packet.0))
}

fn test_written(alloc: Global) -> Option<bool> {
    let mut pools = Pools::new(alloc).ok()?;
    let mut memory = guest_memory(alloc)?;
    written_again(alloc, &mut pools, &mut memory)
}

#[test]
fn a_packet_is_new_each_time(rt: HostRuntime) {
    let passed = test_written(rt.alloc());
    assert!(rt; passed == Some(true));
}

/// A buffer for 1,514 bytes at 0x81234567: size 32 and flags 4, the address, its page, the count and
/// the offset in the page.
fn buffer_fields(alloc: Global, pools: &mut Pools, memory: &mut Memory) -> Option<bool>
    requires { HasGuestPool (map.get memory.old) }
{
    let pool = pools.make_buffers(alloc, 2).ok()?;
    let bytes = Addr(0x8123_4567);
    let buffer = pools
        .alloc_buffer(pool, bytes, 1514, &Layout::usual(), memory)
        .ok()?;
    let at = buffer.0;
    Some(
        word(memory, at) == Some(0)
            && word(memory, at.wrapping_add(4)) == Some(0x0004_0020)
            && word(memory, at.wrapping_add(8)) == Some(0)
            && word(memory, at.wrapping_add(12)) == Some(0x8123_4567)
            && word(memory, at.wrapping_add(16)) == Some(0x8123_4000)
            && word(memory, at.wrapping_add(20)) == Some(1514)
            && word(memory, at.wrapping_add(24)) == Some(0x567)
            && word(memory, at.wrapping_add(28)) == Some(0),
    )
}

fn test_buffer(alloc: Global) -> Option<bool> {
    let mut pools = Pools::new(alloc).ok()?;
    let mut memory = guest_memory(alloc)?;
    buffer_fields(alloc, &mut pools, &mut memory)
}

#[test]
fn a_buffer_has_its_fields(rt: HostRuntime) {
    let passed = test_buffer(rt.alloc());
    assert!(rt; passed == Some(true));
}

/// How many of 4,096 buffers can be allocated, and freed in the same order.
fn large(alloc: Global, pools: &mut Pools, memory: &mut Memory) -> Option<u32>
    requires { HasGuestPool (map.get memory.old) }
{
    let pool = pools.make_buffers(alloc, 4096).ok()?;
    let layout = Layout::usual();
    let mut out = 0u32;
    for k in 0..4097u32 {
        if pools
            .alloc_buffer(pool, Addr(k), k, &layout, memory)
            .is_ok()
        {
            out = out.wrapping_add(1);
        }
    }
    Some(out)
}

fn test_large(alloc: Global) -> Option<u32> {
    let mut pools = Pools::new(alloc).ok()?;
    let mut memory = guest_memory(alloc)?;
    large(alloc, &mut pools, &mut memory)
}

#[test]
fn a_pool_of_4096_gives_as_many(rt: HostRuntime) {
    let out = test_large(rt.alloc());
    assert!(rt; out == Some(4096));
}
