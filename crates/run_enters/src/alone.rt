//! A handler that is ready, behind whose enter nothing must stand.

ghost use Rattle.std.specs.Prelude.{◌≡◌, ◌<◌, ◌≤◌, ◌+◌, ◌^◌, true, false};
ghost use Rattle.owner_book.specs.Stopping.{stop_room};
ghost use Rattle.legal_run.specs.State.{Inputs};
ghost use Rattle.legal_run.specs.Run.{Meets};
ghost use Rattle.legal_run.specs.VerdictLaws.{is_send};
ghost use Rattle.guest_world.specs.Worlds.{longest_time};
ghost use Rattle.handler_entries.specs.Entries.{entry_of};
ghost use Rattle.handler_words.specs.Ready.{IsReady, MayBeOf};
ghost use Rattle.run_moves.specs.Runs.{EntersOr};
ghost use Rattle.run_stops.specs.Standing.{IsSettled, Runs, point_of, state_of};
ghost use Rattle.run_stops.specs.Stopping.{owner_of};
ghost use Rattle.run_enters.specs.Entered.{EntersByOr, is_alone};

use handler_entries::Entering;
use handler_words::enter_laws;
use log_fields::Handler;
use nd_base::{AdapterNo, CtxNo, OutOfMemory};
use run_facts::{contexts_are_ready, expirations_are_few, periods_are_short};
use run_moves::Running;
use run_stops::{moves_add, states_are_free};
use stop_rooms::rooms_stay;

/// A handler that is ready is entered, where its enter may stand.
///
/// # Errors
/// [`OutOfMemory`] where the book wants memory; nothing has changed then.
pub(crate) fn enter_ready(
    run: &mut Running,
    x: CtxNo,
    entering: Entering,
) -> Result<(), OutOfMemory>
    ghost c: { Inputs }
    requires runs { Runs c run.old }
    requires adapter { MayBeOf entering.adapter entering.handler }
    requires ready { IsReady (point_of c run.old) entering.adapter x entering.handler entering }
    requires meets { Meets c (state_of c run.old) (entry_of x entering) }
    requires plain { is_send entering.handler ≡ false }
    requires time { run.old.world.clock.clock + longest_time < 2 ^ 64 }
    requires spare { 0 < run.old.log.spare }
    ensures { EntersOr (point_of c run.old) x entering run.old run.new result }
{
    contexts_are_ready();
    enter_laws();
    expirations_are_few();
    periods_are_short();
    // So many entries fit into no memory.
    if run.log.len() == u64::MAX {
        return Err(OutOfMemory);
    }
    run.enter(x, entering)
}

/// A handler that is ready is entered, in front of whose enter nothing stands, and behind which nothing
/// must.
///
/// # Errors
/// [`OutOfMemory`] where the book wants memory.
pub(crate) fn enter_alone(
    run: &mut Running,
    x: CtxNo,
    a: Option<AdapterNo>,
    h: Handler,
    entering: Entering,
) -> Result<(), OutOfMemory>
    ghost c: { Inputs }
    requires settled { IsSettled c run.old }
    requires alone { is_alone h ≡ true }
    requires adapter { MayBeOf a h }
    requires ready { IsReady (point_of c run.old) a x h entering }
    requires meets { Meets c (state_of c run.old) (entry_of x entering) }
    requires time { run.old.world.clock.clock + longest_time < 2 ^ 64 }
    requires room { stop_room (owner_of c run.old) + 3 ≤ run.old.log.spare }
    ensures { EntersByOr c a x h run.old run.new result }
{
    moves_add();
    rooms_stay();
    states_are_free();
    enter_ready(run, x, entering)
}
