//! Pools of descriptors.

ghost use Rattle.std.specs.Prelude.{◌≤◌, length};
ghost use Rattle.import_answers.specs.Descriptors.{allocate_pool, free_pool};
ghost use Rattle.packet_pool.specs.LiveMoves.{MakesPool};
ghost use Rattle.import_answers.specs.Outcomes.{Comes};
ghost use Rattle.call_replies.specs.Wanting.{ComesOr};
ghost use Rattle.calls_packets.specs.Wants.{ChangesLive};

use crate::status_writes::{RESOURCES, SUCCESS, with_status};
use call_replies::{ARGUMENTS_RULE, can_write, done};
use guest_world::{Answer, CallRefusal, World};
use packet_pool::{Kind, PoolRefusal, Pools};
use std::alloc::Global;

/// A pool of so many descriptors of a kind: its handle.
fn make_pool(alloc: Global, pools: &mut Pools, kind: Kind, count: u32) -> Result<u32, PoolRefusal>
    ensures { MakesPool pools.old kind count result pools.new }
{
    match kind {
        Kind::Packet => pools.make_packets(alloc, count),
        Kind::Buffer => pools.make_buffers(alloc, count),
    }
}

/// NdisAllocatePacketPool, import 23, and NdisAllocateBufferPool, import 27: a pool of so many
/// descriptors, whose handle is written with the status. Where memory is wanted for these writes, a
/// pool may have been made.
pub fn allocate_pool(
    alloc: Global,
    world: &mut World,
    kind: Kind,
    words: &[u32],
) -> Result<Answer, CallRefusal>
    requires { 3 ≤ length words.now }
    ensures { ComesOr ChangesLive (allocate_pool world.old kind words.now) world.old result world.new }
{
    if !can_write(world, words[0], 4) || !can_write(world, words[1], 4) {
        return Err(ARGUMENTS_RULE);
    }
    match make_pool(alloc, &mut world.pools, kind, words[2]) {
        Ok(handle) => with_status(alloc, words, SUCCESS, handle),
        Err(PoolRefusal::OutOfMemory) => Err(CallRefusal::OutOfMemory),
        Err(PoolRefusal::Count) => with_status(alloc, words, RESOURCES, 0),
        Err(PoolRefusal::NoRoom) => with_status(alloc, words, RESOURCES, 0),
        Err(PoolRefusal::NoPool) => unreachable!(),
        Err(PoolRefusal::PoolFull) => unreachable!(),
    }
}

/// NdisFreePacketPool, import 24, and NdisFreeBufferPool, import 28: ends a pool of either kind.
pub fn free_pool(alloc: Global, world: &mut World, words: &[u32]) -> Result<Answer, CallRefusal>
    requires { 1 ≤ length words.now }
    ensures { Comes (free_pool world.old words.now) world.old result world.new }
{
    match world.pools.free_pool(words[0]) {
        Ok(()) => Ok(done(alloc)),
        Err(broken) => Err(CallRefusal::Broken(broken)),
    }
}
