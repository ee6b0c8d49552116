//! The end of a reset.

ghost use Rattle.std.specs.Prelude.{◌≡◌, ◌<◌, Some};
ghost use Rattle.call_log.specs.declared.entry.Entry.TheVariants as entries;
ghost use Rattle.legal_run.specs.Must.{must, Exactly};
ghost use Rattle.miniport_state.specs.Seen.{Point};
ghost use Rattle.run_moves.specs.Runs.{Grows, IsRun};

use call_log::Entry;
use legal_run::run_laws;
use miniport::write;
use nd_base::{AdapterNo, Status};
use run_duties::each_duty_is_served;
use run_moves::Running;

/// The reset of an adapter ends with a status, as it must.
pub fn end_reset(run: &mut Running, adapter: AdapterNo, status: Status)
    ghost o: { Point }
    requires run { IsRun o run.old }
    requires due { must o.state ≡ Some (Exactly (entries.ResetEnd adapter status)) }
    requires spare { 0 < run.old.log.spare }
    ensures { Grows o (entries.ResetEnd adapter status) run.old run.new }
{
    each_duty_is_served();
    run_laws();
    write(
        &mut run.book,
        &mut run.log,
        Entry::ResetEnd { adapter, status },
    );
}
