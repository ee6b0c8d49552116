//! Events that a driver signals.

ghost use Rattle.std.specs.Prelude.{◌≡◌, ◌≤◌, ◌+◌, true, length};
ghost use Rattle.call_log.specs.declared.entry.Entry.TheVariants as entries;
ghost use Rattle.owner_machine.specs.Adapters.{may_signal};
ghost use Rattle.owner_book.specs.Stopping.{stop_room};
ghost use Rattle.legal_run.specs.State.{Inputs};
ghost use Rattle.run_stops.specs.Standing.{IsSettled, SettlesByOr};
ghost use Rattle.run_stops.specs.Stopping.{owner_of};

use crate::moves::write_event;
use legal_run::run_laws;
use nd_base::{BindingNo, Bytes, OutOfMemory};
use run_moves::Running;
use run_stops::moves_add;
use stop_rooms::rooms_stay;

/// A driver signals the event of a number, with its bytes; `taken` where the miniport's handler is to
/// have it.
///
/// # Errors
/// [`OutOfMemory`] where memory is wanted for the event; nothing is written then.
pub fn signal(
    run: &mut Running,
    driver: BindingNo,
    number: u32,
    bytes: Bytes,
    taken: bool,
) -> Result<(), OutOfMemory>
    ghost c: { Inputs }
    requires settled { IsSettled c run.old }
    requires may { may_signal (owner_of c run.old) driver.0 (length bytes) taken ≡ true }
    requires room { stop_room (owner_of c run.old) + 3 ≤ run.old.log.spare }
    ensures { SettlesByOr c (entries.Event driver number bytes taken) run.old run.new result }
{
    moves_add();
    rooms_stay();
    run_laws();
    write_event(run, driver, number, bytes, taken)?;
    Ok(())
}
