//! Calls that access a port again and again, for a buffer.

ghost use Rattle.std.specs.Prelude.{◌≡◌, ◌≤◌, ◌<◌, ◌*◌, ◌^◌, [], length, replicate, IsSome, None, Some, OnOk, IfOk, IfErr, IfSome, IfNone, if◌then◌else◌, true};
ghost use Rattle.std.specs.FinMap as map;
ghost use Rattle.nd_mem.specs.Space.{bytes_from};
ghost use Rattle.guest_world.specs.Worlds.{CanAnswer, IsIdle, adapter_of};
ghost use Rattle.import_answers.specs.World.{word};
ghost use Rattle.import_answers.specs.Outcomes.{can_read, can_write};
ghost use Rattle.import_answers.specs.Blocks.{bytes_written, moves};
ghost use Rattle.import_answers.specs.Ports.{in_buffer, out_buffer, read_buffer, write_buffer};
ghost use Rattle.call_replies.specs.Wanting.{ComesOr};
ghost use Rattle.calls_ports.specs.Cards.{bytes_of, HasAdapter, ChangesCard};

use crate::cards::{offset_of_port, read_card, write_card};
use crate::ports::sending;
use crate::width::Width;
use call_replies::{ARGUMENTS_RULE, can_read, can_write, filled, moved};
use guest_world::{Answer, CallRefusal, Caller, SentFrames, World};
use nd_base::Addr;
use nd_mem::fault_laws;
use std::alloc::Global;

/// How many bytes so many accesses move, if there are as many addresses.
fn buffer_length(width: Width, count: u32) -> Option<u32>
    ensures some { IfSome result (λ n. n ≡ bytes_of width * count) }
    ensures none { IfNone result (2 ^ 32 ≤ bytes_of width * count) }
{
    (width.bytes() as u32).checked_mul(count)
}

/// How many bytes so many accesses move, if a buffer of as many can be written.
fn written_length(world: &World, at: u32, width: Width, count: u32) -> Option<u32>
    ensures { result ≡ (if can_write world.now at (bytes_of width * count) then Some (bytes_of width * count) else None) }
{
    fault_laws();
    world.memory.is_low();
    let length = buffer_length(width, count)?;
    if can_write(world, at, length) {
        Some(length)
    } else {
        None
    }
}

/// How many bytes so many accesses move, if a buffer of as many can be read.
fn read_length(world: &World, at: u32, width: Width, count: u32) -> Option<u32>
    ensures { result ≡ (if can_read world.now at (bytes_of width * count) then Some (bytes_of width * count) else None) }
{
    fault_laws();
    world.memory.is_low();
    let length = buffer_length(width, count)?;
    if can_read(world, at, length) {
        Some(length)
    } else {
        None
    }
}

/// Reads a port of the card as often as the call asks, into its buffer.
fn read_from_card(
    alloc: Global,
    world: &mut World,
    caller: Caller,
    words: &[u32],
    width: Width,
    port: u8,
) -> Result<Answer, CallRefusal>
    requires there { IsSome (adapter_of world.old caller.adapter) }
    requires port { port < 0x20 }
    requires words { 3 ≤ length words.now }
    requires bytes { bytes_of width * word words.now 3 < 2 ^ 32 }
    ensures answer { ComesOr (ChangesCard caller.adapter) (read_buffer world.old caller words.now (bytes_of width) (Some port)) world.old result world.new }
    ensures idle { IsIdle world.old → IsIdle world.new }
{
    let Ok(mut bytes) = filled(alloc, 0, width.bytes() as u32 * words[2]) else {
        return Err(CallRefusal::OutOfMemory);
    };
    let count = words[2] as usize;
    read_card(
        world,
        caller.adapter,
        port,
        width.bytes(),
        count,
        &mut bytes,
    );
    moved(alloc, 0, words[1], &bytes)
}

/// Answers a call that reads where no card is: its buffer gets all ones.
fn read_from_none(
    alloc: Global,
    world: &World,
    caller: Caller,
    words: &[u32],
    width: Width,
    total: u32,
) -> Result<Answer, CallRefusal>
    requires words { 3 ≤ length words.now }
    requires bytes { total ≡ bytes_of width * word words.now 3 }
    ensures { ComesOr (ChangesCard caller.adapter) (read_buffer world.now caller words.now (bytes_of width) None) world.now result world.now }
{
    let Ok(bytes) = filled(alloc, 0xFF, total) else {
        return Err(CallRefusal::OutOfMemory);
    };
    match moved(alloc, 0, words[1], &bytes) {
        Ok(answer) => Ok(answer),
        Err(_) => Err(CallRefusal::OutOfMemory),
    }
}

/// READ_PORT_BUFFER_UCHAR, import 57, and READ_PORT_BUFFER_USHORT, import 58: what the port gives is
/// written to the buffer. Where memory is wanted, the card alone may have changed.
pub fn in_buffer(
    alloc: Global,
    world: &mut World,
    caller: Caller,
    words: &[u32],
    width: Width,
) -> Result<Answer, CallRefusal>
    requires can { CanAnswer world.old caller }
    requires there { HasAdapter world.old caller.adapter }
    requires words { 3 ≤ length words.now }
    ensures answer { ComesOr (ChangesCard caller.adapter) (in_buffer world.old caller words.now (bytes_of width)) world.old result world.new }
    ensures idle { IsIdle world.new }
{
    let Some(length) = written_length(world, words[1], width, words[2]) else {
        return Err(ARGUMENTS_RULE);
    };
    match offset_of_port(world, caller.adapter, words[0]) {
        Some(port) => read_from_card(alloc, world, caller, words, width, port),
        None => read_from_none(alloc, world, caller, words, width, length),
    }
}

/// The bytes of a buffer that can be read.
fn buffer_bytes(alloc: Global, world: &World, at: u32, count: u32) -> Result<Vec<u8>, CallRefusal>
    requires { can_read world.now at count ≡ true }
    ensures ok { IfOk result (λ bytes. bytes.items ≡ bytes_from (map.get world.now.memory) at count) }
    ensures count { IfOk result (λ bytes. length bytes.items ≡ count) }
    ensures err { IfErr result (λ e. e ≡ CallRefusal.OutOfMemory) }
{
    let mut bytes = filled(alloc, 0, count)?;
    match world.memory.read(Addr(at), &mut bytes) {
        Ok(()) => Ok(bytes),
        Err(_) => unreachable!(),
    }
}

/// Writes a port of the card as often as the call asks, from its buffer, which can be read.
fn write_to_card(
    alloc: Global,
    world: &mut World,
    caller: Caller,
    words: &[u32],
    width: Width,
    port: u8,
) -> Result<Answer, CallRefusal>
    requires idle { IsIdle world.old }
    requires there { IsSome (adapter_of world.old caller.adapter) }
    requires port { port < 0x20 }
    requires words { 3 ≤ length words.now }
    requires bytes { bytes_of width * word words.now 3 < 2 ^ 32 }
    requires readable { can_read world.old (word words.now 2) (bytes_of width * word words.now 3) ≡ true }
    ensures answer { ComesOr (ChangesCard caller.adapter) (write_buffer world.old caller words.now (bytes_of width) (Some port)) world.old result world.new }
    ensures idle { OnOk result (IsIdle world.new) }
{
    let length = width.bytes() as u32 * words[2];
    let Ok(bytes) = buffer_bytes(alloc, world, words[1], length) else {
        return Err(CallRefusal::OutOfMemory);
    };
    let count = words[2] as usize;
    let mut sent = SentFrames::new(alloc);
    match write_card(
        alloc,
        world,
        caller.adapter,
        port,
        width.bytes(),
        count,
        &bytes,
        &mut sent,
    ) {
        Ok(()) => Ok(sending(alloc, cost_of(length), sent)),
        Err(_) => Err(CallRefusal::OutOfMemory),
    }
}

/// The cost of a call that moves so many bytes.
fn cost_of(count: u32) -> u64
    ensures { result ≡ moves count }
{
    1 + u64::from(count) / 16
}

/// WRITE_PORT_BUFFER_UCHAR, import 59, and WRITE_PORT_BUFFER_USHORT, import 60: what the buffer has
/// is written to the port. Where memory is wanted, the card alone may have changed.
pub fn out_buffer(
    alloc: Global,
    world: &mut World,
    caller: Caller,
    words: &[u32],
    width: Width,
) -> Result<Answer, CallRefusal>
    requires can { CanAnswer world.old caller }
    requires there { HasAdapter world.old caller.adapter }
    requires words { 3 ≤ length words.now }
    ensures answer { ComesOr (ChangesCard caller.adapter) (out_buffer world.old caller words.now (bytes_of width)) world.old result world.new }
    ensures idle { OnOk result (IsIdle world.new) }
{
    let Some(length) = read_length(world, words[1], width, words[2]) else {
        return Err(ARGUMENTS_RULE);
    };
    match offset_of_port(world, caller.adapter, words[0]) {
        Some(port) => write_to_card(alloc, world, caller, words, width, port),
        None => Ok(sending(alloc, cost_of(length), SentFrames::new(alloc))),
    }
}
