//! The stops for want of memory.

ghost use Rattle.std.specs.Prelude.{◌≡◌, ◌<◌, ◌+◌, length};
ghost use Rattle.legal_run.specs.State.{Inputs};
ghost use Rattle.miniport_state.specs.Seen.{Point};
ghost use Rattle.run_stops.specs.Standing.{IsCut, IsGiven, state_of};
ghost use Rattle.run_ends.specs.Ending.{EndsForMemory, EndsOn, IsEnding};

use crate::finished::is_finished;
use call_log::Cause;
use legal_run::run_laws;
use nd_base::AdapterNo;
use run_facts::lists_keep_their_lengths;
use run_moves::Running;
use run_stops::{stops_take_room, tails_go_on};

/// Stops an adapter that is not finished, where those in front of it are.
fn end_if_unfinished(run: &mut Running, a: AdapterNo)
    ghost o: { Point }
    requires now { o.state ≡ state_of o.inputs run.old }
    requires ending { IsEnding o.inputs a.0 run.old }
    requires within { a.0 < length o.inputs.adapters }
    ensures { EndsOn o.inputs (a.0 + 1) run.old run.new }
{
    run_laws();
    lists_keep_their_lengths();
    tails_go_on();
    stops_take_room();
    if !is_finished(&run.book, a) {
        run.book.stop(a, Cause::Memory, &mut run.log);
    }
}

/// Ends a run for want of memory: stops every adapter that is not finished, in rising order, each with
/// its tail. Takes no memory.
pub fn end_for_memory(run: &mut Running)
    ghost c: { Inputs }
    requires cut { IsCut c run.old }
    requires given { IsGiven c }
    ensures { EndsForMemory c run.old run.new }
{
    lists_keep_their_lengths();
    for n in 0..run.book.adapters() as u8 {
        end_if_unfinished(run, AdapterNo(n));
    }
}
