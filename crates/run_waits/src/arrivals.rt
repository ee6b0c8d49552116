//! The next frame of the wire.

ghost use Rattle.std.specs.Prelude.{◌≡◌, ◌<◌, ◌≤◌, ◌+◌, ◌^◌, true, Some, slice_get};
ghost use Rattle.call_log.specs.declared.entry.Entry.TheVariants as entries;
ghost use Rattle.owner_book.specs.Stopping.{stop_room};
ghost use Rattle.legal_run.specs.State.{Inputs};
ghost use Rattle.legal_run.specs.Owed.{frame_due};
ghost use Rattle.legal_run.specs.Run.{Meets};
ghost use Rattle.miniport_state.specs.Seen.{Point};
ghost use Rattle.run_moves.specs.Runs.{Grows, IsRun};
ghost use Rattle.run_stops.specs.Standing.{IsSettled, SettlesBy, state_of};
ghost use Rattle.run_stops.specs.Stopping.{owner_of};

use crate::cards::reach_all;
use call_log::Entry;
use frame_wire::Arrival;
use legal_run::run_laws;
use miniport::{free_entries_stand, write};
use run_moves::Running;
use run_stops::moves_add;

/// The next frame comes, and every card gets it.
fn come(run: &mut Running, frame: &Arrival)
    ghost o: { Point }
    requires run { IsRun o run.old }
    requires frame { slice_get o.inputs.frames o.state.come ≡ Some frame.now }
    requires meets { Meets o.inputs o.state (entries.WireIn o.state.come) }
    requires few { o.state.come + 1 < 2 ^ 64 }
    requires spare { 0 < run.old.log.spare }
    ensures { Grows o (entries.WireIn o.state.come) run.old run.new }
{
    run_laws();
    let entry = Entry::WireIn {
        frame: run.course.come,
    };
    write(&mut run.book, &mut run.log, entry);
    reach_all(&mut run.world.adapters, frame.bytes.as_slice());
    run.course.come += 1;
    run.course.expired = 0;
}

/// The next frame of the wire comes, whose stamp is not above the clock.
pub fn arrive(run: &mut Running, frames: &[Arrival])
    ghost c: { Inputs }
    requires settled { IsSettled c run.old }
    requires frames { frames.now ≡ c.frames }
    requires due { frame_due c (state_of c run.old) ≡ true }
    requires room { stop_room (owner_of c run.old) + 3 ≤ run.old.log.spare }
    ensures { SettlesBy c (entries.WireIn (state_of c run.old).come) run.old run.new }
{
    free_entries_stand();
    moves_add();
    come(run, &frames[run.course.come as usize]);
}
