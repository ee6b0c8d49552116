//! MiniportReturnPacket.

ghost use Rattle.std.specs.Prelude.{◌≡◌, ◌<◌, ◌≤◌, ◌+◌, ◌^◌, Some};
ghost use Rattle.log_fields.specs.declared.field_values.Handler.TheVariants as handler;
ghost use Rattle.owner_book.specs.Stopping.{stop_room};
ghost use Rattle.legal_run.specs.State.{Inputs};
ghost use Rattle.legal_run.specs.Run.{Meets};
ghost use Rattle.guest_world.specs.Worlds.{longest_time};
ghost use Rattle.handler_entries.specs.Entries.{entry_of};
ghost use Rattle.handler_words.specs.Ready.{IsReady};
ghost use Rattle.run_stops.specs.Standing.{IsSettled, point_of, state_of};
ghost use Rattle.run_stops.specs.Stopping.{owner_of};
ghost use Rattle.run_enters.specs.Entered.{EntersByOr};

use crate::alone::enter_ready;
use crate::loans::{loan_named, second_word};
use handler_entries::Entering;
use loan_facts::back_is_live;
use nd_base::{AdapterNo, CtxNo, LoanNo, OutOfMemory};
use run_duties::each_duty_is_served;
use run_moves::Running;
use run_stops::{moves_add, states_are_free};
use stop_rooms::rooms_stay;

/// MiniportReturnPacket that is ready is entered, and the loan goes home whose descriptor it is told.
///
/// # Errors
/// [`OutOfMemory`] where the book wants memory.
pub(crate) fn enter_home(
    run: &mut Running,
    x: CtxNo,
    a: AdapterNo,
    entering: Entering,
) -> Result<(), OutOfMemory>
    ghost c: { Inputs }
    requires settled { IsSettled c run.old }
    requires adapter { a.0 < 4 }
    requires ready { IsReady (point_of c run.old) (Some a) x handler.ReturnPacket entering }
    requires meets { Meets c (state_of c run.old) (entry_of x entering) }
    requires time { run.old.world.clock.clock + longest_time < 2 ^ 64 }
    requires room { stop_room (owner_of c run.old) + 3 ≤ run.old.log.spare }
    ensures { EntersByOr c (Some a) x handler.ReturnPacket run.old run.new result }
{
    back_is_live();
    each_duty_is_served();
    moves_add();
    rooms_stay();
    states_are_free();
    let descriptor = second_word(entering.words.as_slice());
    let loan = loan_named(&run.book, run.course.lent.as_slice(), a, descriptor);
    enter_ready(run, x, entering)?;
    run.back(loan, false);
    Ok(())
}
