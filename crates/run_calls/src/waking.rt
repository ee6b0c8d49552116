//! Calls that have waited.

ghost use Rattle.std.specs.Prelude.{◌≡◌, ◌<◌, ◌≤◌, ◌+◌, ◌^◌, true};
ghost use Rattle.std.specs.Option.{option_and_then};
ghost use Rattle.guest_world.specs.Worlds.{longest_time};
ghost use Rattle.owner_book.specs.Stopping.{stop_room};
ghost use Rattle.legal_run.specs.State.{Inputs, call_at, is_open};
ghost use Rattle.legal_run.specs.Replies.{has_waited};
ghost use Rattle.miniport_state.specs.Seen.{Point};
ghost use Rattle.miniport_state.specs.Views.{wait_of};
ghost use Rattle.run_moves.specs.Runs.{IsRun};
ghost use Rattle.run_stops.specs.Standing.{IsGiven, IsSettled, state_of};
ghost use Rattle.run_stops.specs.Stopping.{owner_of};
ghost use Rattle.run_calls.specs.Waking.{Wakes, does_not_spin_at, resumption, resumption_of};

use crate::replies::reply_whole;
use call_facts::{calls_return, costs_are_small};
use guest_calls::resumed;
use import_table::import_row;
use legal_run::{entry_laws, nothing_stands_between, run_laws};
use miniport::free_entries_stand;
use miniport_state::{Stage, Wait};
use nd_base::CtxNo;
use run_facts::{calls_agree, spent_are_due};
use run_moves::Running;
use std::alloc::Global;

/// AL of the function that a call has waited for, or 0 where it has slept; none where it waits still.
fn resumption(wait: Wait) -> Option<u8>
    ensures { result ≡ resumption (wait_of wait) }
{
    match wait {
        Wait::OnClock(_) => Some(0),
        Wait::OnSync(Stage::Left(eax)) => Some((eax % 256) as u8),
        _ => None,
    }
}

/// The import of a context's open call, and what it was resumed with.
fn resumption_of(run: &Running, x: CtxNo) -> Option<(u8, u8)>
    ghost o: { Point }
    requires run { IsRun o run.now }
    requires number { x.0 < 16 }
    ensures { result ≡ option_and_then resumption_of (call_at o.state x.0) }
{
    let context = &run.adapters.contexts[usize::from(x.0)];
    let Some(call) = &context.call else {
        return None;
    };
    let al = resumption(call.wait)?;
    Some((call.import, al))
}

/// The reply of a call that has slept, or has waited for its function, where the moment has come or the
/// function has left; and the stops where the budget is reached by it.
pub fn wake(run: &mut Running, alloc: Global, x: CtxNo)
    ghost c: { Inputs }
    requires settled { IsSettled c run.old }
    requires given { IsGiven c }
    requires number { x.0 < 16 }
    requires open { is_open (state_of c run.old) x.0 ≡ true }
    requires waited { has_waited (state_of c run.old) x ≡ true }
    requires plain { does_not_spin_at (state_of c run.old) x ≡ true }
    requires time { run.old.world.clock.clock + longest_time < 2 ^ 64 }
    requires room { stop_room (owner_of c run.old) + 3 ≤ run.old.log.spare }
    ensures { Wakes c x run.old run.new }
{
    calls_agree();
    calls_return();
    costs_are_small();
    entry_laws();
    free_entries_stand();
    nothing_stands_between();
    run_laws();
    spent_are_due();
    let Some((import, al)) = resumption_of(run, x) else {
        unreachable!()
    };
    reply_whole(
        run,
        alloc,
        x,
        import_row(import),
        resumed(alloc, import, al),
    );
}
