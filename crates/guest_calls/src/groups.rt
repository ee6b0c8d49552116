//! The imports by their numbers: each is served by its group's crate.

ghost use Rattle.std.specs.Prelude.{◌≤◌};
ghost use Rattle.guest_world.specs.Worlds.{CanAnswer};
ghost use Rattle.import_answers.specs.World.{IsNumber};
ghost use Rattle.import_answers.specs.Outcomes.{Comes};
ghost use Rattle.call_replies.specs.Wanting.{ComesOr};
ghost use Rattle.calls_ports.specs.Cards.{HasAdapter, ChangesCard};
ghost use Rattle.calls_packets.specs.Wants.{ChangesLive};
ghost use Rattle.guest_calls.specs.Rows.{row_answer};

use calls_completion::{
    debug_print, indicate_receive, not_served, of_adapter, send_complete, stall,
};
use calls_levels::{acquire, allocate_lock, free_lock, lower, raise, release};
use calls_memory::{allocate_memory, copy_memory, free_memory, set_memory};
use calls_packets::{
    allocate_descriptor, allocate_pool, free_descriptor, free_pool, get_first_buffer, query_buffer,
    unchain_buffer,
};
use calls_ports::{Width, in_buffer, in_port, out_buffer, out_port};
use calls_resources::{
    deregister_interrupt, deregister_ports, register_interrupt, register_ports, synchronize,
};
use calls_setup::{
    close_configuration, initialize_wrapper, open_configuration, query_resources,
    read_configuration, read_network_address, register_miniport, set_attributes, terminate_wrapper,
};
use calls_timers::{cancel_timer, initialize_timer, set_periodic_timer, set_timer, sleep};
use guest_world::{Answer, CallRefusal, Caller, World};
use packet_pool::Kind;
use std::alloc::Global;

/// What a group answers.
type Answered = Result<Answer, CallRefusal>;

/// Imports 1 to 10: the wrapper, the miniport, levels, and an adapter's parameters.
#[tactic(auto, unfolding(import_answers::specs::Answers::answering))]
pub fn setup(
    alloc: Global,
    world: &mut World,
    caller: Caller,
    import: u8,
    words: &[u32; 8],
) -> Answered
    requires can { CanAnswer world.old caller }
    requires number { IsNumber caller.adapter }
    requires import { (1 ≤ import) × (import ≤ 10) }
    ensures { Comes (row_answer import world.old caller words.now) world.old result world.new }
{
    match import {
        1 => initialize_wrapper(alloc, world, words),
        2 => terminate_wrapper(alloc, world, words),
        3 => register_miniport(alloc, world, &caller, words),
        4 => raise(alloc, world, caller, words),
        5 => lower(alloc, world, caller, words),
        6 => set_attributes(alloc, world, &caller, words),
        7 => open_configuration(alloc, world, &caller, words),
        8 => read_configuration(alloc, world, &caller, words),
        9 => close_configuration(alloc, world, &caller, words),
        10 => read_network_address(alloc, world, &caller, words),
        _ => unreachable!(),
    }
}

/// Imports 11 to 20: an adapter's ports and interrupt, timers and sleep.
#[tactic(auto, unfolding(import_answers::specs::Answers::answering))]
pub fn resources(
    alloc: Global,
    world: &mut World,
    caller: Caller,
    import: u8,
    words: &[u32; 8],
) -> Answered
    requires can { CanAnswer world.old caller }
    requires number { IsNumber caller.adapter }
    requires import { (11 ≤ import) × (import ≤ 20) }
    ensures { Comes (row_answer import world.old caller words.now) world.old result world.new }
{
    match import {
        11 => register_ports(alloc, world, &caller, words),
        12 => deregister_ports(alloc, world, &caller, words),
        13 => register_interrupt(alloc, world, &caller, words),
        14 => deregister_interrupt(alloc, world, &caller, words),
        15 => synchronize(world, &caller, words),
        16 => initialize_timer(alloc, world, caller, words),
        17 => set_timer(alloc, world, caller, words),
        18 => set_periodic_timer(alloc, world, caller, words),
        19 => cancel_timer(alloc, world, caller, words),
        20 => Ok(sleep(world, caller, words)),
        _ => unreachable!(),
    }
}

/// Imports 21 to 32: blocks, pools, descriptors and buffers.
#[tactic(auto, using(crate::proofs::Wanting::comes_live), unfolding(import_answers::specs::Answers::answering))]
pub fn descriptors(
    alloc: Global,
    world: &mut World,
    caller: Caller,
    import: u8,
    words: &[u32; 8],
) -> Answered
    requires import { (21 ≤ import) × (import ≤ 32) }
    ensures { ComesOr ChangesLive (row_answer import world.old caller words.now) world.old result world.new }
{
    match import {
        21 => allocate_memory(alloc, world, words),
        22 => free_memory(alloc, world, words),
        23 => allocate_pool(alloc, world, Kind::Packet, words),
        24 => free_pool(alloc, world, words),
        25 => allocate_descriptor(alloc, world, Kind::Packet, words),
        26 => free_descriptor(alloc, world, Kind::Packet, words),
        27 => allocate_pool(alloc, world, Kind::Buffer, words),
        28 => free_pool(alloc, world, words),
        29 => allocate_descriptor(alloc, world, Kind::Buffer, words),
        30 => free_descriptor(alloc, world, Kind::Buffer, words),
        31 => unchain_buffer(alloc, world, words),
        32 => query_buffer(alloc, world, words),
        _ => unreachable!(),
    }
}

/// Imports 33 to 38: spin locks.
#[tactic(auto, unfolding(import_answers::specs::Answers::answering))]
pub fn locks(
    alloc: Global,
    world: &mut World,
    caller: Caller,
    import: u8,
    words: &[u32; 8],
) -> Answered
    requires can { CanAnswer world.old caller }
    requires import { (33 ≤ import) × (import ≤ 38) }
    ensures { Comes (row_answer import world.old caller words.now) world.old result world.new }
{
    match import {
        33 => allocate_lock(alloc, world, words),
        34 => free_lock(alloc, world, words),
        35 => acquire(alloc, world, caller, words, false),
        36 => release(alloc, world, caller, words, false),
        37 => acquire(alloc, world, caller, words, true),
        38 => release(alloc, world, caller, words, true),
        _ => unreachable!(),
    }
}

/// Imports 39 to 52: completions, indications, what is only logged, an adapter's resources and a
/// packet's first buffer.
#[tactic(auto, unfolding(import_answers::specs::Answers::answering))]
pub fn completions(
    alloc: Global,
    world: &World,
    caller: &Caller,
    import: u8,
    words: &[u32; 8],
) -> Answered
    requires number { IsNumber caller.now.adapter }
    requires import { (39 ≤ import) × (import ≤ 52) }
    ensures { Comes (row_answer import world.now caller.now words.now) world.now result world.now }
{
    match import {
        39 => send_complete(alloc, world, caller, words),
        40 => of_adapter(alloc, world, caller, words),
        41 => indicate_receive(alloc, world, caller, words),
        42 => of_adapter(alloc, world, caller, words),
        43 => of_adapter(alloc, world, caller, words),
        44 => of_adapter(alloc, world, caller, words),
        45 => of_adapter(alloc, world, caller, words),
        46 => of_adapter(alloc, world, caller, words),
        47 => not_served(world, caller, words),
        48 => not_served(world, caller, words),
        49 => of_adapter(alloc, world, caller, words),
        50 => of_adapter(alloc, world, caller, words),
        51 => query_resources(alloc, world, caller, words),
        52 => get_first_buffer(alloc, world, words),
        _ => unreachable!(),
    }
}

/// Imports 53 to 60: ports.
#[tactic(auto, unfolding(import_answers::specs::Answers::answering))]
pub fn ports(
    alloc: Global,
    world: &mut World,
    caller: Caller,
    import: u8,
    words: &[u32; 8],
) -> Answered
    requires can { CanAnswer world.old caller }
    requires there { HasAdapter world.old caller.adapter }
    requires import { (53 ≤ import) × (import ≤ 60) }
    ensures { ComesOr (ChangesCard caller.adapter) (row_answer import world.old caller words.now) world.old result world.new }
{
    match import {
        53 => Ok(in_port(alloc, world, caller, words, Width::Byte)),
        54 => Ok(in_port(alloc, world, caller, words, Width::Word)),
        55 => out_port(alloc, world, caller, words, Width::Byte),
        56 => out_port(alloc, world, caller, words, Width::Word),
        57 => in_buffer(alloc, world, caller, words, Width::Byte),
        58 => in_buffer(alloc, world, caller, words, Width::Word),
        59 => out_buffer(alloc, world, caller, words, Width::Byte),
        60 => out_buffer(alloc, world, caller, words, Width::Word),
        _ => unreachable!(),
    }
}

/// Imports 61 to 64: the run-time.
#[tactic(auto, unfolding(import_answers::specs::Answers::answering))]
pub fn run_time(
    alloc: Global,
    world: &mut World,
    caller: Caller,
    import: u8,
    words: &[u32; 8],
) -> Answered
    requires import { (61 ≤ import) × (import ≤ 64) }
    ensures { Comes (row_answer import world.old caller words.now) world.old result world.new }
{
    match import {
        61 => stall(alloc, world, words),
        62 => copy_memory(alloc, world, words),
        63 => set_memory(alloc, world, words),
        64 => debug_print(alloc, world),
        _ => unreachable!(),
    }
}
