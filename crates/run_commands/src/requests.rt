//! Questions that a driver asks of its adapter.

ghost use Rattle.std.specs.Prelude.{◌≡◌, ◌<◌, ◌≤◌, ◌+◌, true};
ghost use Rattle.call_log.specs.declared.entry.Entry.TheVariants as entries;
ghost use Rattle.owner_machine.specs.declared.rows.Next.TheVariants.{Asked};
ghost use Rattle.owner_machine.specs.State.{bound};
ghost use Rattle.owner_book.specs.Stopping.{stop_room};
ghost use Rattle.legal_run.specs.State.{Inputs};
ghost use Rattle.run_stops.specs.Standing.{IsSettled, Settles, SettlesByOr};
ghost use Rattle.run_stops.specs.Stopping.{owner_of};
ghost use Rattle.run_commands.specs.Commands.{IsBehind, next_request};

use crate::moves::{answer_without, status_due, write_ask};
use call_log::Question;
use legal_run::run_laws;
use nd_base::{BindingNo, OutOfMemory, RequestNo, Status};
use run_moves::Running;
use run_stops::moves_add;
use std::alloc::Global;
use stop_rooms::rooms_stay;

/// Answers a question that was asked just now, where it is refused.
fn answer_refused(run: &mut Running, alloc: Global, asked: RequestNo)
    ghost c: { Inputs }
    requires { IsBehind c (Asked asked) run.old }
    ensures { Settles c run.old run.new }
{
    moves_add();
    rooms_stay();
    run_laws();
    if let Some(status) = status_due(run.book.must()) {
        answer_without(run, alloc, asked, Status(status));
    }
}

/// A driver that is bound asks a question of its adapter; where the adapter does not run, or the question
/// is wrong, it is answered so at once.
///
/// # Errors
/// [`OutOfMemory`] where memory is wanted for the question; nothing is written then.
pub fn ask(
    run: &mut Running,
    alloc: Global,
    driver: BindingNo,
    question: Question,
) -> Result<(), OutOfMemory>
    ghost c: { Inputs }
    requires settled { IsSettled c run.old }
    requires bound { bound (owner_of c run.old) driver.0 ≡ true }
    requires room { stop_room (owner_of c run.old) + 3 ≤ run.old.log.spare }
    ensures { SettlesByOr c (entries.Ask driver (next_request (owner_of c run.old)) question) run.old run.new result }
{
    moves_add();
    rooms_stay();
    run_laws();
    let request = RequestNo(run.book.requests());
    write_ask(run, driver, request, question)?;
    answer_refused(run, alloc, request);
    Ok(())
}
