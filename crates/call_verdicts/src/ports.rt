//! Accesses to ports: the bytes that were moved, and the frames that the card sent then.

ghost use Rattle.std.specs.Prelude.{◌≡◌, ◌≤◌, ◌<◌, ◌*◌, ◌++◌, map, take, true, false, OnOk, IfOk};
ghost use Rattle.std.specs.Int.{w32, to_le_bytes};
ghost use Rattle.nd_mem.specs.Space.{bytes_from};
ghost use Rattle.call_log.specs.declared.entry.Entry.TheVariants as kinds;
ghost use Rattle.import_answers.specs.World.{cells, hardware_of, word};
ghost use Rattle.import_answers.specs.Outcomes.{can_read};
ghost use Rattle.import_answers.specs.Ports.{offset_of_port};
ghost use Rattle.legal_run.specs.State.{State};
ghost use Rattle.legal_run.specs.Calls.{bytes_moved, first_bytes, is_read, makes, moves_buffer, number_moved, port_entries, way_of, width_of};
ghost use Rattle.legal_run.specs.Laws.{CallKeeps};
ghost use Rattle.call_verdicts.specs.Deeds.{CanMove, did_as};

use crate::deeds::{Deed, nothing};
use crate::words::word;
use call_log::{Direction, Entry};
use guest_world::{Reply, SentFrames, World};
use log_fields::Writes;
use nd_base::{AdapterNo, Bytes, OutOfMemory};
use nd_mem::fault_laws;
use std::alloc::Global;
use verdict_parts::bytes_at;

/// How many ports a card has.
const PORTS: u32 = 32;

/// How many bytes wide an access is.
fn width_of(import: u8) -> u8
    ensures value { result ≡ width_of import }
    ensures small { result ≤ 2 }
{
    2 - import % 2
}

/// Whether an import of ports reads.
fn is_read(import: u8) -> bool
    requires { 53 ≤ import }
    ensures { result ≡ is_read import }
{
    (import - 53) / 2 % 2 == 0
}

/// Whether an import of ports moves a buffer.
fn moves_buffer(import: u8) -> bool
    ensures { result ≡ moves_buffer import }
{
    57 <= import
}

/// Which way the bytes of an import of ports go.
fn way_of(import: u8) -> Direction
    requires { 53 ≤ import }
    ensures { result ≡ way_of import }
{
    if is_read(import) {
        Direction::In
    } else {
        Direction::Out
    }
}

/// The number that an access moves.
fn number_moved(import: u8, words: &[u32], reply: &Reply) -> u32
    requires { 53 ≤ import }
    ensures { result ≡ number_moved import words.now reply.now }
{
    if is_read(import) {
        reply.eax
    } else {
        word(words, 2)
    }
}

/// As many bytes of a number as an access is wide.
fn number_bytes(alloc: Global, import: u8, number: u32) -> Result<Bytes, OutOfMemory>
    ensures { IfOk result (λ bytes. bytes ≡ take (width_of import) (to_le_bytes w32 number)) }
{
    let four = number.to_le_bytes();
    Bytes::copy(alloc, &four[..usize::from(width_of(import))])
}

/// The bytes of the first of some writes.
fn first_bytes(alloc: Global, writes: &Writes) -> Result<Bytes, OutOfMemory>
    ensures { IfOk result (λ bytes. bytes ≡ first_bytes writes.now) }
{
    match writes.as_slice().first() {
        Some(write) => write.bytes.copied(alloc),
        None => Ok(Bytes::new(alloc)),
    }
}

/// The bytes of the buffer that is written to a port.
fn buffer_bytes(
    alloc: Global,
    world: &World,
    import: u8,
    words: &[u32],
) -> Result<Bytes, OutOfMemory>
    requires { can_read world.now (word words.now 2) (width_of import * word words.now 3) ≡ true }
    ensures { IfOk result (λ bytes. bytes ≡ bytes_from (cells world.now) (word words.now 2) (width_of import * word words.now 3)) }
{
    fault_laws();
    world.memory.is_low();
    let width = u32::from(width_of(import));
    let Some(count) = width.checked_mul(word(words, 3)) else {
        unreachable!()
    };
    let bytes = bytes_at(alloc, &world.memory, word(words, 2), count)?;
    Bytes::copy(alloc, &bytes)
}

/// The bytes that a call moves.
fn bytes_moved(
    alloc: Global,
    world: &World,
    import: u8,
    words: &[u32],
    reply: &Reply,
) -> Result<Bytes, OutOfMemory>
    ghost s: { State }
    requires import { 53 ≤ import }
    requires memory { world.now.memory ≡ s.world.memory }
    requires buffer { CanMove s import words.now }
    ensures { IfOk result (λ bytes. bytes ≡ bytes_moved s import words.now reply.now) }
{
    if !moves_buffer(import) {
        number_bytes(alloc, import, number_moved(import, words, reply))
    } else if is_read(import) {
        first_bytes(alloc, &reply.writes)
    } else {
        buffer_bytes(alloc, world, import, words)
    }
}

/// The first port of an adapter's card; 0 where the adapter is not there.
fn first_port(world: &World, a: AdapterNo) -> u32
    requires { a.0 < 4 }
    ensures { result ≡ (hardware_of world.now (Some a)).port }
{
    match &world.adapters[usize::from(a.0)] {
        Some(adapter) => u32::from(adapter.hardware.port),
        None => 0,
    }
}

/// How far behind its card's first port a port is, if it is one of the card of the adapter.
fn offset_of_port(world: &World, a: AdapterNo, port: u32) -> Option<u8>
    ghost s: { State }
    requires number { a.0 < 4 }
    requires keeps { CallKeeps s.world world.now }
    ensures { result ≡ offset_of_port s.world (Some a) port }
{
    let first = first_port(world, a);
    if first <= port && port - first < PORTS {
        Some((port - first) as u8)
    } else {
        None
    }
}

/// Puts the frames that a card sent behind the other entries.
fn put_sent(
    alloc: Global,
    a: AdapterNo,
    frames: &SentFrames,
    entries: &mut Vec<Entry>,
) -> Result<(), OutOfMemory>
    ensures { OnOk result (entries.new.items ≡ entries.old.items ++ map (λ frame. kinds.WireOut a frame) frames.now) }
{
    for frame in frames.as_slice() {
        let bytes = frame.copied(alloc)?;
        entries.push(Entry::WireOut { adapter: a, bytes })?;
    }
    Ok(())
}

/// The entries of a call that has accessed a port of the adapter's card.
fn port_entries(
    alloc: Global,
    world: &World,
    a: AdapterNo,
    import: u8,
    words: &[u32],
    reply: &Reply,
    port: u8,
) -> Result<Vec<Entry>, OutOfMemory>
    ghost s: { State }
    requires import { 53 ≤ import }
    requires memory { world.now.memory ≡ s.world.memory }
    requires buffer { CanMove s import words.now }
    ensures { IfOk result (λ es. es.items ≡ port_entries s a.0 import words.now reply.now (Some port)) }
{
    let bytes = bytes_moved(alloc, world, import, words, reply)?;
    let mut entries = Vec::new(alloc);
    entries.push(Entry::Port {
        adapter: a,
        direction: way_of(import),
        width: width_of(import),
        port,
        bytes,
    })?;
    put_sent(alloc, a, &reply.sent, &mut entries)?;
    Ok(entries)
}

/// READ_PORT_UCHAR and its like, imports 53 to 60: the access, and the frames that the card sent then. A
/// port that is not the adapter's makes no entry. The world is the one behind the answer.
pub(crate) fn port_deed(
    alloc: Global,
    world: &World,
    a: AdapterNo,
    import: u8,
    words: &[u32],
    reply: &Reply,
) -> Result<Deed, OutOfMemory>
    ghost s: { State }
    requires number { a.0 < 4 }
    requires import { 53 ≤ import }
    requires keeps { CallKeeps s.world world.now }
    requires buffer { CanMove s import words.now }
    ensures { IfOk result (λ d. did_as d ≡ makes (port_entries s a.0 import words.now reply.now (offset_of_port s.world (Some a) (word words.now 1)))) }
{
    let Some(port) = offset_of_port(world, a, word(words, 1)) else {
        return Ok(nothing(alloc));
    };
    let entries = port_entries(alloc, world, a, import, words, reply, port)?;
    Ok(Deed::Made(entries, Vec::new(alloc), Writes::new(alloc)))
}
