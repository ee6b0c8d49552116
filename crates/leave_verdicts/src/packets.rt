//! MiniportSend and MiniportSendPackets.

ghost use Rattle.std.specs.Prelude.{◌≡◌, ◌==◌, ◌&&◌, ◌++◌, ℕ, OnOk, IfOk};
ghost use Rattle.import_answers.specs.Statuses.{resources};
ghost use Rattle.legal_run.specs.State.{State};
ghost use Rattle.legal_run.specs.Calls.{given_back, verdicts};
ghost use Rattle.leave_verdicts.specs.Judged.{HasStatusBy, drawn_as, status_by};

use crate::judgement::{Judgement, breaks};
use crate::statuses::{PENDING, RESOURCES};
use call_log::Entry;
use guest_world::World;
use nd_base::{OutOfMemory, PacketNo, Status};
use owner_book::Book;
use run_course::Frame;
use std::alloc::Global;
use verdict_parts::{is_at_miniport, slot_status};

/// The rule against a verdict on a packet that the miniport does not hold.
const PACKET_RULE: u8 = 1;

/// By what a packet is judged: the status that its handler returns, or the one in its descriptor.
#[derive(Clone, Copy)]
pub(crate) enum Judging {
    ByReturn(u32),
    InPlace,
}

/// The status by which a packet is judged.
fn status_by(world: &World, book: &Book, frames: &[Frame], by: Judging, k: u64) -> u32
    ghost s: { State }
    requires world { world.now ≡ s.world }
    requires owner { book.now ≡ s.owner }
    requires frames { frames.now ≡ s.packets }
    requires status { HasStatusBy s by k }
    ensures { result ≡ status_by s by k }
{
    match by {
        Judging::ByReturn(eax) => eax,
        Judging::InPlace => slot_status(world, book, frames, k),
    }
}

/// Whether a packet with a status goes back.
fn goes_back(serial: bool, status: u32) -> bool
    ensures { result ≡ (serial && (status == resources)) }
{
    serial && status == RESOURCES
}

/// Puts behind the others that each of these packets which the miniport holds goes back.
fn give_back(book: &Book, entries: &mut Vec<Entry>, packets: &[u64]) -> Result<(), OutOfMemory>
    ghost s: { State }
    requires { book.now ≡ s.owner }
    ensures { OnOk result (entries.new.items ≡ entries.old.items ++ given_back s packets.now) }
{
    for k in packets {
        if !is_at_miniport(book, *k) {
            continue;
        }
        entries.push(Entry::Requeue {
            packet: PacketNo(*k),
        })?;
    }
    Ok(())
}

/// The verdicts on packets, one after the other. Where the miniport is serialized and without
/// resources for one, that and each later one that it holds go back.
pub(crate) fn packet_verdicts(
    alloc: Global,
    book: &Book,
    world: &World,
    frames: &[Frame],
    by: Judging,
    serial: bool,
    packets: &[u64],
) -> Result<Judgement, OutOfMemory>
    ghost s: { State }
    requires owner { book.now ≡ s.owner }
    requires world { world.now ≡ s.world }
    requires frames { frames.now ≡ s.packets }
    requires statuses { (k : ℕ) → HasStatusBy s by k }
    ensures { IfOk result (λ j. drawn_as j ≡ verdicts s (status_by s by) serial packets.now) }
{
    let mut entries = Vec::new(alloc);
    for (i, k) in packets.iter().enumerate() {
        let status = status_by(world, book, frames, by, *k);
        if status == PENDING {
            continue;
        }
        if !is_at_miniport(book, *k) {
            return Ok(breaks(PACKET_RULE));
        }
        if goes_back(serial, status) {
            give_back(book, &mut entries, &packets[i..])?;
            return Ok(Judgement::Draws(entries));
        }
        entries.push(Entry::Complete {
            packet: PacketNo(*k),
            status: Status(status),
        })?;
    }
    Ok(Judgement::Draws(entries))
}
