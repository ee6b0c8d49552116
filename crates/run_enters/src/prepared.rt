//! Handlers that are owed, with what they are entered with.

ghost use Rattle.std.specs.Prelude.{◌≡◌, ◌≤◌, ◌<◌, true, false, None, IfOk, length};
ghost use Rattle.log_fields.specs.declared.field_values.Handler.TheVariants as handler;
ghost use Rattle.legal_run.specs.State.{is_free};
ghost use Rattle.legal_run.specs.Owed.{frame_due, is_owed};
ghost use Rattle.miniport_state.specs.Seen.{Point};
ghost use Rattle.handler_words.specs.Ready.{IsReady, IsReadyOr};
ghost use Rattle.run_moves.specs.Runs.{IsRun};

use handler_entries::Entering;
use handler_words::{entering, entering_owed};
use log_fields::Handler;
use nd_base::{AdapterNo, CtxNo, OutOfMemory};
use run_moves::Running;
use std::alloc::Global;

/// DriverEntry with what it is entered with.
pub(crate) fn prepare_entry(run: &Running, alloc: Global, x: CtxNo) -> Result<Entering, OutOfMemory>
    ghost o: { Point }
    requires run { IsRun o run.now }
    requires context { x.0 < 16 }
    requires free { is_free o.state x.0 ≡ true }
    requires frames { frame_due o.inputs o.state ≡ false }
    ensures { IfOk result (IsReady o None x handler.DriverEntry) }
{
    entering(
        alloc,
        &run.adapters,
        &run.book,
        &run.world,
        None,
        x,
        Handler::DriverEntry,
    )
}

/// A handler that an adapter owes with what it is entered with; none of one that sends packets.
pub(crate) fn prepare_owed(
    run: &Running,
    alloc: Global,
    x: CtxNo,
    a: AdapterNo,
    h: Handler,
) -> Result<Option<Entering>, OutOfMemory>
    ghost o: { Point }
    requires run { IsRun o run.now }
    requires adapter { a.0 < 4 }
    requires drivers { length o.state.owner.drivers ≤ 256 }
    requires context { x.0 < 16 }
    requires free { is_free o.state x.0 ≡ true }
    requires frames { frame_due o.inputs o.state ≡ false }
    requires owed { is_owed o.inputs o.state a.0 h ≡ true }
    ensures { IfOk result (IsReadyOr o a x h) }
{
    entering_owed(
        alloc,
        &run.adapters,
        &run.book,
        &run.world,
        run.course.lent.as_slice(),
        a,
        x,
        h,
    )
}
