//! What one packet of an array makes.

ghost use Rattle.std.specs.Prelude.{◌≡◌, ◌≤◌, ◌<◌, ◌||◌, ◌∷◌, [], true, not, if◌then◌else◌, length, reverse, IfOk};
ghost use Rattle.import_answers.specs.Statuses.{pending, success};
ghost use Rattle.legal_run.specs.State.{State, cells};
ghost use Rattle.legal_run.specs.Calls.{Walked, judged, may_be_lent, status_place, told};
ghost use Rattle.legal_run.specs.Frames.{frame_at};
ghost use Rattle.legal_run.specs.Guest.{word as put_word};
ghost use Rattle.verdict_parts.specs.Places.{HasStatus};
ghost use Rattle.call_verdicts.specs.Deeds.{CanLend, judged_as, writes_of};

use crate::frames::{frame_at, is_copied, may_be_lent, status_place};
use crate::holders::wanting;
use crate::rules::PENDING;
use call_log::Entry;
use guest_world::World;
use log_fields::Write;
use nd_base::{AdapterNo, Addr, Breach, Bytes, LoanNo, OutOfMemory};
use owner_book::Book;
use std::alloc::Global;
use verdict_parts::is_serialized;

/// NDIS_STATUS_SUCCESS.
const SUCCESS: u32 = 0;

/// The rule against a packet that may not be lent.
const LIVE_RULE: u8 = 2;

/// The rule against a packet without a frame.
const FRAME_RULE: u8 = 11;

/// The rule against more than can be had.
pub(crate) const LIMIT_RULE: u8 = 12;

/// How many loans of an adapter may be away.
const MOST_LOANS: u64 = 256;

/// The entry that tells a frame; the status that is written into its packet; and whether its loan goes
/// out.
#[derive(Drop)]
pub(crate) struct Lending {
    pub(crate) entry: Entry,
    pub(crate) status: Option<Write>,
    pub(crate) goes: bool,
}

/// What one packet comes to, or the rule that it breaks.
pub(crate) type Judged = Result<Lending, Breach>;

/// The status that tells a serialized miniport whether it has a packet back, where it was not copied.
fn status_written(
    alloc: Global,
    world: &World,
    packet: u32,
    copied: bool,
    serial: bool,
    unheld: bool,
) -> Result<Option<Write>, OutOfMemory>
    ghost s: { State }
    requires { world.now ≡ s.world }
    ensures { IfOk result (λ write. writes_of write
        ≡ (if copied || not serial then [] else put_word (status_place s packet) (if unheld then success else pending) ∷ [])) }
{
    if copied || !serial {
        return Ok(None);
    }
    let status = if unheld { SUCCESS } else { PENDING };
    let bytes = Bytes::copy(alloc, &status.to_le_bytes())?;
    Ok(Some(Write {
        at: Addr(status_place(world, packet)),
        bytes,
    }))
}

/// What a packet with a frame comes to.
fn told(
    alloc: Global,
    book: &Book,
    world: &World,
    a: AdapterNo,
    j: u64,
    away: u64,
    packet: u32,
    bytes: Bytes,
) -> Result<Judged, OutOfMemory>
    ghost s: { State }
    requires owner { book.now ≡ s.owner }
    requires world { world.now ≡ s.world }
    requires drivers { length s.owner.drivers ≤ 256 }
    requires status { HasStatus s packet }
    ensures told { IfOk result (λ r. (home gone : Walked) → judged_as r packet home gone ≡ told s a.0 j away packet bytes home gone) }
    ensures few { IfOk result (λ r. IfOk r (λ t. t.goes ≡ true → away < 256)) }
{
    let copied = is_copied(world, packet);
    let serial = is_serialized(book, a);
    let holders = wanting(alloc, book, a, bytes.as_slice())?;
    let unheld = holders.is_empty();
    let home = copied || (unheld && serial);
    if !home && away >= MOST_LOANS {
        return Ok(Err(Breach(LIMIT_RULE)));
    }
    let entry = Entry::Indicate {
        adapter: a,
        loan: LoanNo(j),
        bytes,
        holders,
        copied,
    };
    let status = status_written(alloc, world, packet, copied, serial, unheld)?;
    Ok(Ok(Lending {
        entry,
        status,
        goes: !home,
    }))
}

/// What a packet comes to, behind these of its array.
pub(crate) fn judged(
    alloc: Global,
    book: &Book,
    world: &World,
    a: AdapterNo,
    j: u64,
    away: u64,
    before: &[u32],
    packet: u32,
) -> Result<Judged, OutOfMemory>
    ghost s: { State }
    requires owner { book.now ≡ s.owner }
    requires world { world.now ≡ s.world }
    requires drivers { length s.owner.drivers ≤ 256 }
    requires lends { CanLend s }
    ensures judged { IfOk result (λ r. (home gone : Walked) → judged_as r packet home gone
        ≡ judged s a.0 j away packet (may_be_lent s (reverse before.now) packet) (frame_at s.world.layout (cells s) packet) home gone) }
    ensures few { IfOk result (λ r. IfOk r (λ t. t.goes ≡ true → away < 256)) }
{
    if !may_be_lent(world, before, packet) {
        return Ok(Err(Breach(LIVE_RULE)));
    }
    match frame_at(alloc, world, packet)? {
        Some(bytes) => told(alloc, book, world, a, j, away, packet, bytes),
        None => Ok(Err(Breach(FRAME_RULE))),
    }
}
