//! MiniportReset.

ghost use Rattle.std.specs.Prelude.{◌≡◌, ◌<◌, ◌≤◌, ◌+◌, ◌^◌, true, false, length, Some};
ghost use Rattle.log_fields.specs.declared.field_values.Handler.TheVariants as handler;
ghost use Rattle.owner_book.specs.Stopping.{stop_room};
ghost use Rattle.legal_run.specs.State.{Inputs, is_free};
ghost use Rattle.legal_run.specs.Owed.{frame_due, is_owed};
ghost use Rattle.guest_world.specs.Worlds.{longest_time};
ghost use Rattle.handler_words.specs.Ready.{IsReady};
ghost use Rattle.run_stops.specs.Standing.{IsSettled, point_of, state_of};
ghost use Rattle.run_stops.specs.Stopping.{owner_of};
ghost use Rattle.run_enters.specs.Entered.{EntersByOr};

use crate::alone::enter_ready;
use call_log::Entry;
use handler_entries::Entering;
use handler_words::enter_laws;
use nd_base::{AdapterNo, CtxNo, OutOfMemory};
use run_moves::Running;
use run_stops::{moves_add, states_are_free};
use stop_rooms::rooms_stay;

/// The reset of an adapter begins, and MiniportReset that is ready is entered.
///
/// # Errors
/// [`OutOfMemory`] where the book wants memory; the reset has begun then.
pub(crate) fn enter_reset(
    run: &mut Running,
    x: CtxNo,
    a: AdapterNo,
    entering: Entering,
) -> Result<(), OutOfMemory>
    ghost c: { Inputs }
    requires settled { IsSettled c run.old }
    requires owed { is_owed c (state_of c run.old) a.0 handler.Reset ≡ true }
    requires inside { a.0 < length c.adapters }
    requires adapter { a.0 < 4 }
    requires context { x.0 < 16 }
    requires free { is_free (state_of c run.old) x.0 ≡ true }
    requires frames { frame_due c (state_of c run.old) ≡ false }
    requires ready { IsReady (point_of c run.old) (Some a) x handler.Reset entering }
    requires time { run.old.world.clock.clock + longest_time < 2 ^ 64 }
    requires room { stop_room (owner_of c run.old) + 3 ≤ run.old.log.spare }
    ensures { EntersByOr c (Some a) x handler.Reset run.old run.new result }
{
    enter_laws();
    moves_add();
    rooms_stay();
    states_are_free();
    run.note(Entry::ResetBegin { adapter: a });
    enter_ready(run, x, entering)
}
