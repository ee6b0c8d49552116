//! Completions and indications: which words they need. What they do to packets, loans and requests
//! is not judged here.

ghost use Rattle.std.specs.Prelude.{◌≡◌, ◌*◌};
ghost use Rattle.packet_pool.specs.declared.states.Kind.TheVariants as kind;
ghost use Rattle.import_answers.specs.World.{IsNumber};
ghost use Rattle.import_answers.specs.Outcomes.{Comes, can_read};
ghost use Rattle.import_answers.specs.Descriptors as descriptors;
ghost use Rattle.import_answers.specs.Completions as completions;

use call_replies::{ARGUMENTS_RULE, LIVE_RULE, can_read, done, is_adapter_handle};
use guest_map::SEND_SLOTS;
use guest_world::{Answer, CallRefusal, Caller, World};
use nd_base::{Addr, Breach};
use nd_mem::fault_laws;
use std::alloc::Global;

/// What a call may ask for at most.
const LIMIT_RULE: CallRefusal = CallRefusal::Broken(Breach(12));

/// How far the send slots stand apart.
const SLOT: u32 = 0x800;

/// Whether a packet stands in a send slot.
fn is_in_slot(packet: u32) -> bool
    ensures { result ≡ descriptors.is_in_slot kind.Packet packet }
{
    let first = SEND_SLOTS.first.0;
    first <= packet && packet - first < SEND_SLOTS.length && (packet - first) % SLOT == 0
}

/// NdisMSendComplete (39).
pub fn send_complete(
    alloc: Global,
    world: &World,
    caller: &Caller,
    words: &[u32; 8],
) -> Result<Answer, CallRefusal>
    requires { IsNumber caller.now.adapter }
    ensures { Comes (completions.send_complete world.now caller.now words.now) world.now result world.now }
{
    if !is_adapter_handle(caller.adapter, words[0]) {
        return Err(ARGUMENTS_RULE);
    }
    if !world.pools.has_packet(Addr(words[1])) && !is_in_slot(words[1]) {
        return Err(LIVE_RULE);
    }
    Ok(done(alloc))
}

/// Whether so many words can be read.
fn can_read_words(world: &World, at: u32, count: u32) -> bool
    ensures { result ≡ can_read world.now at (4 * count) }
{
    fault_laws();
    world.memory.is_low();
    match count.checked_mul(4) {
        Some(length) => can_read(world, at, length),
        None => false,
    }
}

/// NdisMIndicateReceivePacket (41).
pub fn indicate_receive(
    alloc: Global,
    world: &World,
    caller: &Caller,
    words: &[u32; 8],
) -> Result<Answer, CallRefusal>
    requires { IsNumber caller.now.adapter }
    ensures { Comes (completions.indicate_receive world.now caller.now words.now) world.now result world.now }
{
    if !is_adapter_handle(caller.adapter, words[0]) || !can_read_words(world, words[1], words[2]) {
        return Err(ARGUMENTS_RULE);
    }
    Ok(done(alloc))
}

/// A call that needs an adapter handle as its first word, and no more: NdisMSendResourcesAvailable
/// (40), NdisMResetComplete (42), NdisMQueryInformationComplete (43), NdisMSetInformationComplete
/// (44), NdisMIndicateStatus (45), NdisMIndicateStatusComplete (46), NdisReadPciSlotInformation (49),
/// NdisWriteErrorLogEntry (50).
pub fn of_adapter(
    alloc: Global,
    world: &World,
    caller: &Caller,
    words: &[u32; 8],
) -> Result<Answer, CallRefusal>
    requires { IsNumber caller.now.adapter }
    ensures { Comes (completions.of_adapter world.now caller.now words.now) world.now result world.now }
{
    let _world = world;
    if !is_adapter_handle(caller.adapter, words[0]) {
        return Err(ARGUMENTS_RULE);
    }
    Ok(done(alloc))
}

/// EthFilterDprIndicateReceive (47), EthFilterDprIndicateReceiveComplete (48): they are not served
/// yet.
pub fn not_served(world: &World, caller: &Caller, words: &[u32; 8]) -> Result<Answer, CallRefusal>
    requires { IsNumber caller.now.adapter }
    ensures { Comes (completions.not_served world.now caller.now words.now) world.now result world.now }
{
    let _world = world;
    if !is_adapter_handle(caller.adapter, words[0]) {
        return Err(ARGUMENTS_RULE);
    }
    Err(LIMIT_RULE)
}
