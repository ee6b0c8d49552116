//! Descriptors of packets and buffers.

ghost use Rattle.std.specs.Prelude.{◌≡◌, ◌≤◌, ◌∷◌, ◌++◌, [], length, OnOk, IfOk, IfErr};
ghost use Rattle.import_answers.specs.Descriptors.{allocate_descriptor, free_descriptor, status_and, descriptor_bytes};
ghost use Rattle.import_answers.specs.Outcomes.{Comes, plain, written};
ghost use Rattle.import_answers.specs.Statuses.{success};
ghost use Rattle.packet_pool.specs.LiveMoves.{Frees, Free};
ghost use Rattle.calls_packets.specs.Lengths.{descriptor_words};

use crate::status_writes::{RESOURCES, SUCCESS, put_status_and, with_status};
use call_replies::{ARGUMENTS_RULE, LIVE_RULE, can_write, done, put_bytes, undo_laws, writes};
use guest_world::{Answer, CallRefusal, World};
use log_fields::Writes;
use nd_base::{Addr, Breach};
use packet_pool::{Kind, PoolRefusal, Pools, buffer_bytes, packet_bytes};
use std::alloc::Global;

/// Puts the write of a new descriptor behind the others.
fn put_descriptor(
    alloc: Global,
    list: &mut Writes,
    world: &World,
    kind: Kind,
    words: &[u32],
    at: u32,
) -> Result<(), CallRefusal>
    requires { descriptor_words kind ≤ length words.now }
    ensures ok { OnOk result (list.new ≡ list.old ++ written at (descriptor_bytes world.now kind words.now) ∷ []) }
    ensures err { IfErr result (λ e. e ≡ CallRefusal.OutOfMemory) }
{
    match kind {
        Kind::Packet => put_bytes(alloc, list, at, &packet_bytes(&world.layout)),
        Kind::Buffer => {
            let bytes = buffer_bytes(&world.layout, Addr(words[3]), words[4]);
            put_bytes(alloc, list, at, &bytes)
        }
    }
}

/// The reply with a new descriptor.
fn with_descriptor(
    alloc: Global,
    world: &World,
    kind: Kind,
    words: &[u32],
    at: u32,
) -> Result<Answer, CallRefusal>
    requires { descriptor_words kind ≤ length words.now }
    ensures ok { IfOk result (λ answer. answer ≡ Answer.Now (plain 0 (written at (descriptor_bytes world.now kind words.now) ∷ status_and words.now success at))) }
    ensures err { IfErr result (λ e. e ≡ CallRefusal.OutOfMemory) }
{
    let mut list = Writes::new(alloc);
    put_descriptor(alloc, &mut list, world, kind, words, at)?;
    put_status_and(alloc, &mut list, words, SUCCESS, at)?;
    Ok(writes(alloc, 0, list))
}

/// Ends a descriptor of a kind.
fn give_back(pools: &mut Pools, kind: Kind, at: Addr) -> Result<(), Breach>
    ensures { Frees pools.old (Free kind at.0) result pools.new }
{
    match kind {
        Kind::Packet => pools.free_packet(at),
        Kind::Buffer => pools.free_buffer(at),
    }
}

/// NdisAllocatePacket, import 25, and NdisAllocateBuffer, import 29: a descriptor of a pool, whose
/// address is written with the status. Where memory is wanted behind it, it is given back.
pub fn allocate_descriptor(
    alloc: Global,
    world: &mut World,
    kind: Kind,
    words: &[u32],
) -> Result<Answer, CallRefusal>
    requires { descriptor_words kind ≤ length words.now }
    ensures { Comes (allocate_descriptor world.old kind words.now) world.old result world.new }
{
    undo_laws();
    if !can_write(world, words[0], 4) || !can_write(world, words[1], 4) {
        return Err(ARGUMENTS_RULE);
    }
    let at = match world.pools.take_descriptor(kind, words[2]) {
        Ok(at) => at,
        Err(PoolRefusal::OutOfMemory) => return Err(CallRefusal::OutOfMemory),
        Err(PoolRefusal::PoolFull) => return with_status(alloc, words, RESOURCES, 0),
        Err(_) => return Err(LIVE_RULE),
    };
    match with_descriptor(alloc, world, kind, words, at.0) {
        Ok(answer) => Ok(answer),
        Err(_) => {
            let _given = give_back(&mut world.pools, kind, at);
            Err(CallRefusal::OutOfMemory)
        }
    }
}

/// NdisFreePacket, import 26, and NdisFreeBuffer, import 30: ends a descriptor of a kind.
pub fn free_descriptor(
    alloc: Global,
    world: &mut World,
    kind: Kind,
    words: &[u32],
) -> Result<Answer, CallRefusal>
    requires { 1 ≤ length words.now }
    ensures { Comes (free_descriptor world.old kind words.now) world.old result world.new }
{
    match give_back(&mut world.pools, kind, Addr(words[0])) {
        Ok(()) => Ok(done(alloc)),
        Err(broken) => Err(CallRefusal::Broken(broken)),
    }
}
