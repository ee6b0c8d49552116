//! Answers of requests.

ghost use Rattle.std.specs.Prelude.{◌≡◌, ◌<◌, Some};
ghost use Rattle.call_log.specs.declared.entry.Entry.TheVariants as entries;
ghost use Rattle.legal_run.specs.Must.{must, Exactly};
ghost use Rattle.miniport_state.specs.Seen.{Point};
ghost use Rattle.run_moves.specs.Runs.{IsRun};
ghost use Rattle.due_moves.specs.Ends.{GrowsOr};

use crate::told::request_driver;
use call_log::Entry;
use legal_run::run_laws;
use nd_base::{Bytes, OutOfMemory, RequestNo, Status};
use owner_book::Refusal;
use run_duties::each_duty_is_served;
use run_moves::Running;

/// A request is answered with a status and bytes, as it must be.
///
/// # Errors
/// [`OutOfMemory`] where the book wants memory; nothing has changed then.
pub fn answer(
    run: &mut Running,
    request: RequestNo,
    status: Status,
    bytes: Bytes,
) -> Result<(), OutOfMemory>
    ghost o: { Point }
    requires run { IsRun o run.old }
    requires due { must o.state ≡ Some (Exactly (entries.Answer request status bytes)) }
    requires spare { 0 < run.old.log.spare }
    ensures { GrowsOr o (entries.Answer request status bytes) run.old run.new result }
{
    each_duty_is_served();
    run_laws();
    let driver = request_driver(&run.book, request);
    let entry = Entry::Answer {
        request,
        status,
        bytes,
    };
    match run.book.admit(&entry) {
        Ok(()) => {}
        Err(Refusal::OutOfMemory) => return Err(OutOfMemory),
        Err(Refusal::Broken(_)) => unreachable!(),
    }
    run.log.append(entry);
    run.course.speak(driver);
    run.course.expired = 0;
    Ok(())
}
