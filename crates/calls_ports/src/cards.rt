//! The card of the caller's adapter.

ghost use Rattle.std.specs.Prelude.{◌≡◌, ◌<◌, ◌≤◌, ◌*◌, ◌++◌, length, IsSome, IfSome, None, Some, OnOk};
ghost use Rattle.dp8390.specs.Card.{bytes_read, after_read};
ghost use Rattle.guest_world.specs.Worlds.{adapter_of, IsIdle};
ghost use Rattle.import_answers.specs.Ports.{offset_of_port, card_of, with_card, reads, puts};
ghost use Rattle.calls_ports.specs.Cards.{HasAdapter, ChangesCard};

use crate::accesses::{read_each, write_each};
use crate::width::Width;
use dp8390::send_laws;
use guest_world::{SentFrames, World};
use nd_base::{AdapterNo, OutOfMemory};
use std::alloc::Global;

/// How many ports a card has.
const PORTS: u32 = 32;

/// How far behind its card's first port a port is, if it is one of the card of the adapter.
pub(crate) fn offset_of_port(world: &World, adapter: Option<AdapterNo>, port: u32) -> Option<u8>
    requires { HasAdapter world.now adapter }
    ensures value { result ≡ offset_of_port world.now adapter port }
    ensures small { IfSome result (λ offset. offset < 0x20) }
    ensures there { IfSome result (λ offset. IsSome (adapter_of world.now adapter)) }
{
    let a = adapter?;
    let Some(adapter) = &world.adapters[usize::from(a.0)] else {
        return None;
    };
    let first = u32::from(adapter.hardware.port);
    if first <= port && port - first < PORTS {
        Some((port - first) as u8)
    } else {
        None
    }
}

/// Reads a port of the adapter's card once.
pub(crate) fn read_once(world: &mut World, adapter: Option<AdapterNo>, port: u8, out: &mut [u8])
    requires there { IsSome (adapter_of world.old adapter) }
    requires port { port < 0x20 }
    requires width { (1 ≤ length out.old) × (length out.old ≤ 2) }
    ensures bytes { out.new ≡ bytes_read (card_of world.old adapter) port (length out.old) }
    ensures card { world.new ≡ with_card world.old adapter (after_read (card_of world.old adapter) port (length out.old)) }
    ensures idle { IsIdle world.old → IsIdle world.new }
{
    send_laws();
    let Some(a) = adapter else { unreachable!() };
    match &mut world.adapters[usize::from(a.0)] {
        Some(adapter) => adapter.card.read(port, out),
        None => unreachable!(),
    }
}

/// Fills a buffer by reads of a port of the adapter's card.
pub(crate) fn read_card(
    world: &mut World,
    adapter: Option<AdapterNo>,
    port: u8,
    width: usize,
    count: usize,
    out: &mut [u8],
)
    requires there { IsSome (adapter_of world.old adapter) }
    requires port { port < 0x20 }
    requires width { (1 ≤ width) × (width ≤ 2) }
    requires length { length out.old ≡ width * count }
    ensures bytes { out.new ≡ (reads (card_of world.old adapter) port width count).0 }
    ensures card { world.new ≡ with_card world.old adapter (reads (card_of world.old adapter) port width count).1 }
    ensures idle { IsIdle world.old → IsIdle world.new }
{
    let Some(a) = adapter else { unreachable!() };
    match &mut world.adapters[usize::from(a.0)] {
        Some(adapter) => read_each(&mut adapter.card, port, width, count, out),
        None => unreachable!(),
    }
}

/// Writes a port of the adapter's card, and takes the frames that the card sends.
pub(crate) fn write_card(
    alloc: Global,
    world: &mut World,
    adapter: Option<AdapterNo>,
    port: u8,
    width: usize,
    count: usize,
    bytes: &[u8],
    sent: &mut SentFrames,
) -> Result<(), OutOfMemory>
    requires there { IsSome (adapter_of world.old adapter) }
    requires port { port < 0x20 }
    requires width { (1 ≤ width) × (width ≤ 2) }
    requires length { length bytes.now ≡ width * count }
    requires idle { IsIdle world.old }
    ensures card { OnOk result (world.new ≡ with_card world.old adapter (puts (card_of world.old adapter) port width bytes.now count).1) }
    ensures frames { OnOk result (sent.new ≡ sent.old ++ (puts (card_of world.old adapter) port width bytes.now count).0) }
    ensures idle { OnOk result (IsIdle world.new) }
    ensures changed { ChangesCard adapter world.old world.new }
{
    let Some(a) = adapter else { unreachable!() };
    match &mut world.adapters[usize::from(a.0)] {
        Some(adapter) => write_each(alloc, &mut adapter.card, port, width, count, bytes, sent),
        None => unreachable!(),
    }
}
