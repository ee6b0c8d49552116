//! The handlers of queries and sets.

ghost use Rattle.std.specs.Prelude.{◌≡◌, ◌<◌, ◌≤◌, ◌+◌, ◌^◌, true};
ghost use Rattle.owner_book.specs.Stopping.{stop_room};
ghost use Rattle.legal_run.specs.State.{Inputs};
ghost use Rattle.legal_run.specs.EntryLaws.{is_ask};
ghost use Rattle.legal_run.specs.Run.{Meets};
ghost use Rattle.guest_world.specs.Worlds.{longest_time};
ghost use Rattle.handler_entries.specs.Entries.{entry_of};
ghost use Rattle.handler_words.specs.Ready.{IsReady};
ghost use Rattle.run_stops.specs.Standing.{IsSettled, point_of, state_of};
ghost use Rattle.run_stops.specs.Stopping.{owner_of};
ghost use Rattle.run_enters.specs.Entered.{EntersByOr};

use crate::alone::enter_ready;
use call_log::Entry;
use handler_entries::Entering;
use legal_run::duties_are_served;
use log_fields::Handler;
use nd_base::{AdapterNo, CtxNo, OutOfMemory, RequestNo};
use owner_book::WhichRequests;
use run_moves::Running;
use run_stops::{moves_add, states_are_free};
use stop_rooms::rooms_stay;

/// The handler of a query or set that is ready is entered, and its request is handed.
///
/// # Errors
/// [`OutOfMemory`] where the book wants memory.
pub(crate) fn enter_asked(
    run: &mut Running,
    x: CtxNo,
    a: AdapterNo,
    h: Handler,
    entering: Entering,
) -> Result<(), OutOfMemory>
    ghost c: { Inputs }
    requires settled { IsSettled c run.old }
    requires asks { is_ask h ≡ true }
    requires adapter { a.0 < 4 }
    requires ready { IsReady (point_of c run.old) (Some a) x h entering }
    requires meets { Meets c (state_of c run.old) (entry_of x entering) }
    requires time { run.old.world.clock.clock + longest_time < 2 ^ 64 }
    requires room { stop_room (owner_of c run.old) + 3 ≤ run.old.log.spare }
    ensures { EntersByOr c (Some a) x h run.old run.new result }
{
    duties_are_served();
    moves_add();
    rooms_stay();
    states_are_free();
    enter_ready(run, x, entering)?;
    let Some(r) = run.book.first_request(WhichRequests::AskedOf(a.0)) else {
        unreachable!()
    };
    run.note(Entry::HandAsk {
        request: RequestNo(r),
    });
    Ok(())
}
