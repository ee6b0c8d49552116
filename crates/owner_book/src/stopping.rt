//! The stop of an adapter.

ghost use Rattle.std.specs.Prelude.{◌≡◌, ◌<◌, ◌≤◌, ◌^◌, ◌+◌, ◌*◌, not, cond, None};
ghost use Rattle.std.specs.Bool.{OnTrue, OnFalse};
ghost use Rattle.owner_machine.specs.declared.rows.Next.TheVariants.{Tail};
ghost use Rattle.owner_machine.specs.State.{is_stopped};
ghost use Rattle.owner_machine.specs.Handlers.{outstanding};
ghost use Rattle.owner_machine.specs.Must.{tail};
ghost use Rattle.owner_rows.specs.Kept.{most_rows};
ghost use Rattle.owner_rules.specs.State.{owner_of};
ghost use Rattle.owner_book.specs.Stopping.{stop_room};
ghost use Rattle.owner_book.specs.Tailing.{EndsOne, Tails};

use crate::loan_moves::send_home;
use crate::packet_moves::end_packet;
use crate::request_moves::end_request;
use call_log::{Entry, Log};
use nd_base::{AdapterNo, Bytes, LoanNo, PacketNo, Phase, RequestNo, Status};
use owner_machine::{Adapter, stop_laws};
use owner_rows::{WhichLoans, WhichPackets, WhichRequests};
use owner_rules::Ledger;
use std::alloc::Global;

/// NDIS_STATUS_FAILURE.
const FAILURE: Status = Status(0xC000_0001);

/// Ends the first thing that is outstanding of an adapter, and writes so; whether there was any.
fn end_one(ledger: &mut Ledger, alloc: Global, adapter: AdapterNo, log: &mut Log) -> bool
    requires next { ledger.old.next ≡ Tail adapter }
    requires spare { outstanding (owner_of ledger.old) adapter.0 ≤ log.old.spare }
    ensures one { OnTrue result (EndsOne (owner_of ledger.old) adapter log.old log.new (owner_of ledger.new)) }
    ensures none { OnFalse result (tail (owner_of ledger.old) adapter.0 ≡ None) }
    ensures stays { OnFalse result (owner_of ledger.new ≡ owner_of ledger.old) }
    ensures silent { OnFalse result (log.new ≡ log.old) }
{
    stop_laws();
    if let Some(k) = ledger.packets.first(WhichPackets::OutOf(adapter.0)) {
        let packet = PacketNo(k);
        end_packet(ledger, adapter, packet);
        log.append(Entry::Complete {
            packet,
            status: FAILURE,
        });
        return true;
    }
    if let Some(j) = ledger.loans.first(WhichLoans::AwayOf(adapter.0)) {
        let loan = LoanNo(j);
        send_home(ledger, loan);
        log.append(Entry::Back { loan, failed: true });
        return true;
    }
    if let Some(r) = ledger.requests.first(WhichRequests::OpenOf(adapter.0)) {
        let request = RequestNo(r);
        end_request(ledger, request);
        log.append(Entry::Answer {
            request,
            status: FAILURE,
            bytes: Bytes::new(alloc),
        });
        return true;
    }
    false
}

/// Ends all that is outstanding of an adapter that was stopped just now, and writes so.
#[tactic(auto, using(crate::proofs::TailSteps::no_entries, crate::proofs::TailSteps::one_more))]
pub(crate) fn end_all(ledger: &mut Ledger, alloc: Global, adapter: AdapterNo, log: &mut Log)
    requires next { ledger.old.next ≡ Tail adapter }
    requires spare { outstanding (owner_of ledger.old) adapter.0 ≤ log.old.spare }
    ensures tails { Tails (owner_of ledger.old) adapter log.old log.new (owner_of ledger.new) }
    ensures over { tail (owner_of ledger.new) adapter.0 ≡ None }
    ensures spare { log.new.spare + outstanding (owner_of ledger.old) adapter.0 ≡ log.old.spare }
{
    stop_laws();
    'endings: while end_one(ledger, alloc, adapter, log) {}
}

/// How many entries it takes to stop an adapter, none where it is Stopped.
fn room_of(ledger: &Ledger, a: u8, row: &Adapter) -> u64
    ensures value { result ≡ cond (not (is_stopped row.now.phase)) (1 + outstanding (owner_of ledger.now) a) 0 }
    ensures fits { result ≤ 1 + 3 * most_rows }
{
    match row.phase {
        Phase::Stopped => 0,
        _ => 1 + ledger.outstanding(a),
    }
}

/// How many entries it takes to stop every adapter that is not Stopped.
#[tactic(auto, using(crate::proofs::Rooms::room_step, crate::proofs::Rooms::room_whole))]
pub(crate) fn stop_room(ledger: &Ledger) -> u64
    ensures value { result ≡ stop_room (owner_of ledger.now) }
    ensures fits { result < 2 ^ 60 }
{
    let mut room = 0;
    for (a, row) in ledger.adapters.iter().enumerate() {
        room += room_of(ledger, a as u8, row);
    }
    room
}
