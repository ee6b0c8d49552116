//! NdisMSendComplete.

ghost use Rattle.std.specs.Prelude.{◌≡◌, ◌&&◌, IfOk};
ghost use Rattle.owner_machine.specs.State.{at};
ghost use Rattle.legal_run.specs.State.{State};
ghost use Rattle.legal_run.specs.Calls.{completion, ending_of, handed_at, is_at, slot_address, was_handed};
ghost use Rattle.call_verdicts.specs.Deeds.{did_as};

use crate::deeds::{Deed, breaks, one};
use crate::rules::{PENDING, PENDING_RULE};
use call_log::Entry;
use nd_base::{AdapterNo, OutOfMemory, PacketNo, Status};
use owner_book::Book;
use owner_machine::Place;
use run_course::Frame;
use std::alloc::Global;
use verdict_parts::{is_at_miniport, slot_address};

/// The rule against the completion of a packet that the miniport does not hold.
const PACKET_RULE: u8 = 1;

/// Whether a packet was handed to the adapter's miniport, which holds it still, or a reset has aborted it.
fn was_handed(book: &Book, a: AdapterNo, k: u64) -> bool
    ensures { result ≡ at (was_handed a.0) book.now.packets k }
{
    match book.packet(PacketNo(k)) {
        Some(packet) => {
            packet.adapter.0 == a.0 && matches!(packet.place, Place::Miniport | Place::Aborted)
        }
        None => false,
    }
}

/// Whether a packet lies at an address.
fn lies_at(book: &Book, frames: &[Frame], k: u64, packet: u32) -> bool
    ghost s: { State }
    requires owner { book.now ≡ s.owner }
    requires frames { frames.now ≡ s.packets }
    ensures { result ≡ is_at packet (slot_address s k) }
{
    match slot_address(book, frames, k) {
        Some(slot) => slot == packet,
        None => false,
    }
}

/// Whether a packet is one of the adapter's miniport, and lies at an address.
fn is_handed_at(book: &Book, frames: &[Frame], a: AdapterNo, k: u64, packet: u32) -> bool
    ghost s: { State }
    requires owner { book.now ≡ s.owner }
    requires frames { frames.now ≡ s.packets }
    ensures { result ≡ (at (was_handed a.0) s.owner.packets k && is_at packet (slot_address s k)) }
{
    was_handed(book, a, k) && lies_at(book, frames, k, packet)
}

/// The packet of the adapter's miniport that lies at an address, if one does.
pub(crate) fn handed_at(book: &Book, frames: &[Frame], a: AdapterNo, packet: u32) -> Option<u64>
    ghost s: { State }
    requires owner { book.now ≡ s.owner }
    requires frames { frames.now ≡ s.packets }
    ensures { result ≡ handed_at s a.0 packet }
{
    for k in 0..book.packets() {
        if is_handed_at(book, frames, a, k, packet) {
            return Some(k);
        }
    }
    None
}

/// A packet that the miniport holds is completed; one that a reset has aborted is late.
fn ending_of(book: &Book, k: u64, status: u32) -> Entry
    ghost s: { State }
    requires { book.now ≡ s.owner }
    ensures { result ≡ ending_of s k status }
{
    let packet = PacketNo(k);
    if is_at_miniport(book, k) {
        Entry::Complete {
            packet,
            status: Status(status),
        }
    } else {
        Entry::Late { packet }
    }
}

/// NdisMSendComplete: the packet that it names is ended with a status.
///
/// # Errors
/// [`OutOfMemory`] where no memory is left.
pub(crate) fn completion(
    alloc: Global,
    book: &Book,
    status: u32,
    packet: Option<u64>,
) -> Result<Deed, OutOfMemory>
    ghost s: { State }
    requires { book.now ≡ s.owner }
    ensures { IfOk result (λ d. did_as d ≡ completion s status packet) }
{
    let Some(k) = packet else {
        return Ok(breaks(PACKET_RULE));
    };
    if status == PENDING {
        return Ok(breaks(PENDING_RULE));
    }
    one(alloc, ending_of(book, k, status))
}
