//! Where packets lie, and the status in their descriptors.

ghost use Rattle.std.specs.Prelude.{◌≡◌};
ghost use Rattle.owner_machine.specs.Packets.{at_miniport};
ghost use Rattle.legal_run.specs.State.{State};
ghost use Rattle.legal_run.specs.Calls.{slot_address, slot_status, status_at};
ghost use Rattle.verdict_parts.specs.Places.{HasSlotStatus, HasStatus};

use crate::reading::word_at;
use guest_world::World;
use nd_base::{Field, PacketNo};
use owner_book::Book;
use owner_machine::Place;
use run_course::Frame;

/// The first send slot of the first driver; how far the drivers' slots stand apart, and those of one.
const SLOTS: u32 = 0x8300_0000;

const DRIVER: u32 = 0x8_0000;

const SLOT: u32 = 0x800;

/// Where the out-of-band part of a packet stands in its descriptor.
const OUT_OF_BAND: u32 = 72;

/// Whether the miniport holds a packet.
pub fn is_at_miniport(book: &Book, k: u64) -> bool
    ensures { result ≡ at_miniport book.now k }
{
    match book.packet(PacketNo(k)) {
        Some(packet) => matches!(packet.place, Place::Miniport),
        None => false,
    }
}

/// The send slot in which a packet lies, if it was handed.
pub fn slot_address(book: &Book, frames: &[Frame], k: u64) -> Option<u32>
    ghost s: { State }
    requires owner { book.now ≡ s.owner }
    requires frames { frames.now ≡ s.packets }
    ensures { result ≡ slot_address s k }
{
    let packet = book.packet(PacketNo(k))?;
    let frame = frames.get(k as usize)?;
    let slot = frame.slot?;
    Some(SLOTS + u32::from(packet.driver.0) * DRIVER + u32::from(slot) * SLOT)
}

/// The status in the out-of-band part of the packet at an address.
pub fn status_at(world: &World, packet: u32) -> u32
    ghost s: { State }
    requires world { world.now ≡ s.world }
    requires status { HasStatus s packet }
    ensures { result ≡ status_at s packet }
{
    let place = packet.wrapping_add(OUT_OF_BAND + world.layout.offset(Field::OobStatus));
    word_at(&world.memory, place)
}

/// The status of a packet where it lies; 0 where it lies nowhere.
pub fn slot_status(world: &World, book: &Book, frames: &[Frame], k: u64) -> u32
    ghost s: { State }
    requires world { world.now ≡ s.world }
    requires owner { book.now ≡ s.owner }
    requires frames { frames.now ≡ s.packets }
    requires status { HasSlotStatus s k }
    ensures { result ≡ slot_status s k }
{
    match slot_address(book, frames, k) {
        Some(packet) => status_at(world, packet),
        None => 0,
    }
}
