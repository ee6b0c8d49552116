//! The reply of a call, with the stops where the budget is reached by it.

ghost use Rattle.std.specs.Prelude.{◌≡◌, ◌<◌, [], false};
ghost use Rattle.std.specs.List.{list_any};
ghost use Rattle.call_log.specs.declared.entry.Entry.TheVariants as entries;
ghost use Rattle.import_table.specs.Table.{row_of, seen};
ghost use Rattle.owner_book.specs.Stopping.{stop_room};
ghost use Rattle.legal_run.specs.State.{Inputs};
ghost use Rattle.legal_run.specs.After.{import_of};
ghost use Rattle.legal_run.specs.Run.{is_memory_stop};
ghost use Rattle.miniport.specs.Replies.{MayReply};
ghost use Rattle.run_moves.specs.Runs.{IsAnswering};
ghost use Rattle.run_stops.specs.Standing.{IsGiven, SettlesBy, point_of, state_of};
ghost use Rattle.run_stops.specs.Stopping.{owner_of};
ghost use Rattle.run_calls.specs.Answering.{IsMaking};

use call_log::Cause;
use guest_world::Reply;
use import_table::ImportRow;
use legal_run::{calls_keep, replies_are_taken};
use miniport::adapter_of;
use nd_base::CtxNo;
use run_duties::calls_go_on;
use run_facts::{calls_can_be_answered, contexts_are_ready, runs_go_on, spent_are_due};
use run_moves::Running;
use run_stops::{moves_add, states_are_free, stop_for};
use std::alloc::Global;
use stop_rooms::rooms_stay;

/// The open call of a context is answered, and where the budget is reached, its adapter is stopped. The
/// world is the one that the call's import left.
pub(crate) fn reply_whole(run: &mut Running, alloc: Global, x: CtxNo, row: &ImportRow, reply: Reply)
    ghost c: { Inputs }
    requires run { IsAnswering (point_of c run.old) run.old }
    requires fed { list_any is_memory_stop run.old.log.entries ≡ false }
    requires row { seen row.now ≡ row_of (import_of (state_of c run.old) x) }
    requires may { MayReply (point_of c run.old) x reply run.old.world }
    requires given { IsGiven c }
    requires room { stop_room (owner_of c run.old) < run.old.log.spare }
    ensures { SettlesBy c (entries.Reply x reply.eax reply.writes) run.old run.new }
{
    moves_add();
    rooms_stay();
    states_are_free();
    let adapter = adapter_of(&run.book, x);
    if run.reply(x, row, reply) {
        stop_for(run, alloc, adapter, Cause::Budget);
    }
}

/// The reply that is due is made.
pub(crate) fn reply_due(run: &mut Running, alloc: Global, x: CtxNo, row: &ImportRow, reply: Reply)
    ghost c: { Inputs }
    requires due { IsMaking (record { inputs = c; context = x; import = import_of (state_of c run.old) x; reply = reply }) [] run.old }
    requires row { seen row.now ≡ row_of (import_of (state_of c run.old) x) }
    requires given { IsGiven c }
    ensures { SettlesBy c (entries.Reply x reply.eax reply.writes) run.old run.new }
{
    calls_can_be_answered();
    calls_go_on();
    calls_keep();
    contexts_are_ready();
    replies_are_taken();
    runs_go_on();
    spent_are_due();
    reply_whole(run, alloc, x, row, reply);
}
