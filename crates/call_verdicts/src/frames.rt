//! Packets that are indicated: whether they may be lent, and their frames.

ghost use Rattle.std.specs.Prelude.{◌≡◌, ◌==◌, ◌&&◌, not, reverse, IfOk};
ghost use Rattle.std.specs.List.{list_any};
ghost use Rattle.import_answers.specs.World.{cells};
ghost use Rattle.import_answers.specs.Statuses.{resources};
ghost use Rattle.legal_run.specs.State.{State};
ghost use Rattle.legal_run.specs.Calls.{is_copied, may_be_lent, status_place};
ghost use Rattle.legal_run.specs.Frames.{frame_at};
ghost use Rattle.verdict_parts.specs.Places.{HasStatus};

use guest_world::World;
use nd_base::{Addr, Bytes, Field, OutOfMemory};
use packet_chain::{ChainFault, chain_bytes};
use std::alloc::Global;
use verdict_parts::status_at;

/// NDIS_STATUS_RESOURCES.
const RESOURCES: u32 = 0xC000_009A;

/// Where the out-of-band part of a packet stands in its descriptor.
const OUT_OF_BAND: u32 = 72;

/// Whether a packet is one of these.
fn is_among(packets: &[u32], packet: u32) -> bool
    ensures { result ≡ list_any (λ d. d == packet) packets.now }
{
    packets.iter().any(|d| *d == packet)
}

/// Whether a packet that is out is neither lent nor among others.
fn is_free(out: bool, lent: bool, among: bool) -> bool
    ensures { result ≡ (out && (not lent && not among)) }
{
    out && !lent && !among
}

/// Whether a packet is one of the pools that is out, and on no loan, and did not stand in this array
/// before.
pub(crate) fn may_be_lent(world: &World, before: &[u32], packet: u32) -> bool
    ghost s: { State }
    requires { world.now ≡ s.world }
    ensures { result ≡ may_be_lent s (reverse before.now) packet }
{
    let out = world.pools.has_packet(Addr(packet));
    let lent = world.pools.lent(Addr(packet));
    is_free(out, lent, is_among(before, packet))
}

/// The frame of a packet, of 14 to 1,514 bytes, if it can be read whole.
pub(crate) fn frame_at(
    alloc: Global,
    world: &World,
    packet: u32,
) -> Result<Option<Bytes>, OutOfMemory>
    ensures { IfOk result (λ frame. frame ≡ frame_at world.now.layout (cells world.now) packet) }
{
    match chain_bytes(alloc, Addr(packet), &world.layout, &world.memory) {
        Ok(bytes) => Ok(Some(bytes)),
        Err(ChainFault::OutOfMemory) => Err(OutOfMemory),
        Err(ChainFault::Fault(_)) => Ok(None),
        Err(ChainFault::Loop) => Ok(None),
        Err(ChainFault::Length) => Ok(None),
    }
}

/// Whether a packet is copied: its status says that the miniport wants it back at once.
pub(crate) fn is_copied(world: &World, packet: u32) -> bool
    ghost s: { State }
    requires world { world.now ≡ s.world }
    requires status { HasStatus s packet }
    ensures { result ≡ is_copied s packet }
{
    status_at(world, packet) == RESOURCES
}

/// Where the status of a packet stands.
pub(crate) fn status_place(world: &World, packet: u32) -> u32
    ghost s: { State }
    requires { world.now ≡ s.world }
    ensures { result ≡ status_place s packet }
{
    packet.wrapping_add(OUT_OF_BAND + world.layout.offset(Field::OobStatus))
}
