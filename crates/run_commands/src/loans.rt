//! Loans that a driver returns.

ghost use Rattle.std.specs.Prelude.{◌≡◌, ◌≤◌, ◌+◌, true};
ghost use Rattle.call_log.specs.declared.entry.Entry.TheVariants as entries;
ghost use Rattle.owner_machine.specs.State.{at};
ghost use Rattle.owner_machine.specs.Loans.{holds};
ghost use Rattle.owner_book.specs.Stopping.{stop_room};
ghost use Rattle.legal_run.specs.State.{Inputs};
ghost use Rattle.run_stops.specs.Standing.{IsSettled, SettlesBy};
ghost use Rattle.run_stops.specs.Stopping.{owner_of};

use crate::moves::write_return;
use legal_run::run_laws;
use nd_base::{BindingNo, LoanNo};
use run_moves::Running;
use run_stops::moves_add;
use stop_rooms::rooms_stay;

/// A driver returns a loan that it holds; the last holder's return makes the loan due.
pub fn give_back(run: &mut Running, driver: BindingNo, loan: LoanNo)
    ghost c: { Inputs }
    requires settled { IsSettled c run.old }
    requires holds { at (holds driver.0) (owner_of c run.old).loans loan.0 ≡ true }
    requires room { stop_room (owner_of c run.old) + 3 ≤ run.old.log.spare }
    ensures { SettlesBy c (entries.Return driver loan) run.old run.new }
{
    moves_add();
    rooms_stay();
    run_laws();
    write_return(run, driver, loan);
}
