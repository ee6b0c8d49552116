//! The stop of an adapter and its tail.

ghost use Rattle.std.specs.Prelude.{◌≡◌, ◌≤◌, ◌<◌, length, None};
ghost use Rattle.std.specs.Bool.{OnTrue, OnFalse};
ghost use Rattle.log_fields.specs.Fields.{HasRule};
ghost use Rattle.call_log.specs.declared.entry.Entry.TheVariants as entries;
ghost use Rattle.owner_machine.specs.Handlers.{outstanding};
ghost use Rattle.owner_machine.specs.Must.{tail};
ghost use Rattle.legal_run.specs.State.{Inputs};
ghost use Rattle.legal_run.specs.Run.{Meets};
ghost use Rattle.miniport_state.specs.Seen.{Point};
ghost use Rattle.run_moves.specs.Runs.{Grows, IsRun};
ghost use Rattle.run_stops.specs.Standing.{Runs, state_of};
ghost use Rattle.run_stops.specs.Stopping.{EndsOne, IsTailing, StopsWhole, failed_answer, owner_of};

use call_log::Cause;
use legal_run::{duties_are_served, run_laws};
use loan_facts::back_is_live;
use nd_base::{AdapterNo, Bytes, LoanNo, PacketNo, RequestNo, Status};
use owner_machine::stop_laws;
use owner_rows::{WhichLoans, WhichPackets, WhichRequests};
use run_moves::Running;
use std::alloc::Global;

/// NDIS_STATUS_FAILURE.
const FAILURE: Status = Status(0xC000_0001);

/// Answers a request that is open with NDIS_STATUS_FAILURE.
fn fail_request(run: &mut Running, alloc: Global, request: RequestNo)
    ghost o: { Point }
    requires run { IsRun o run.old }
    requires meets { Meets o.inputs o.state (failed_answer request) }
    requires spare { 0 < run.old.log.spare }
    ensures { Grows o (failed_answer request) run.old run.new }
{
    match run.answer(request, FAILURE, Bytes::new(alloc)) {
        Ok(()) => {}
        Err(_) => unreachable!(),
    }
}

/// Ends the first thing that is outstanding of an adapter that was stopped, and writes so; whether
/// there was any.
fn end_one(run: &mut Running, alloc: Global, a: AdapterNo) -> bool
    ghost c: { Inputs }
    requires tailing { IsTailing c a run.old }
    requires spare { outstanding (owner_of c run.old) a.0 ≤ run.old.log.spare }
    ensures one { OnTrue result (EndsOne c a run.old run.new) }
    ensures none { OnFalse result (tail (owner_of c run.old) a.0 ≡ None) }
    ensures stays { OnFalse result (run.new ≡ run.old) }
{
    back_is_live();
    duties_are_served();
    run_laws();
    stop_laws();
    if let Some(k) = run.book.first_packet(WhichPackets::OutOf(a.0)) {
        run.complete(PacketNo(k), FAILURE);
        return true;
    }
    if let Some(j) = run.book.first_loan(WhichLoans::AwayOf(a.0)) {
        run.back(LoanNo(j), true);
        return true;
    }
    if let Some(r) = run.book.first_request(WhichRequests::OpenOf(a.0)) {
        fail_request(run, alloc, RequestNo(r));
        return true;
    }
    false
}

/// Stops an adapter, and ends all that is outstanding of it.
pub fn stop_whole(run: &mut Running, alloc: Global, a: AdapterNo, cause: Cause)
    ghost c: { Inputs }
    requires run { Runs c run.old }
    requires meets { Meets c (state_of c run.old) (entries.Stop a cause) }
    requires range { HasRule cause }
    requires few { length c.drivers < 256 }
    requires spare { outstanding (owner_of c run.old) a.0 < run.old.log.spare }
    ensures { StopsWhole c a cause run.old run.new }
{
    run_laws();
    stop_laws();
    run.stop(a, cause);
    'endings: while end_one(run, alloc, a) {}
}
