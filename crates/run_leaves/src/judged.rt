//! What is drawn from a leave, and room for it.

ghost use Rattle.std.specs.Prelude.{◌≡◌, ◌<◌, ◌≤◌, ◌+◌, IfOk, OnOk};
ghost use Rattle.import_answers.specs.World.{IsNumber};
ghost use Rattle.legal_run.specs.State.{adapter_of, context_at, handler_of};
ghost use Rattle.leave_verdicts.specs.Judged.{CanJudgeOf, drawn_as};
ghost use Rattle.miniport_state.specs.Seen.{Point};
ghost use Rattle.run_moves.specs.Runs.{IsRun};
ghost use Rattle.run_leaves.specs.Leaving.{drawn_of, entries_of};

use call_log::{Entry, Log};
use leave_verdicts::{Judgement, judge};
use nd_base::{CtxNo, OutOfMemory};
use run_moves::Running;
use std::alloc::Global;

/// What is drawn where the handler of a context leaves.
pub(crate) fn judged(run: &Running, alloc: Global, x: CtxNo) -> Result<Judgement, OutOfMemory>
    ghost o: { Point }
    requires run { IsRun o run.now }
    requires number { x.0 < 16 }
    requires adapter { IsNumber (adapter_of o.state x.0) }
    requires judge { CanJudgeOf o.state (adapter_of o.state x.0) (context_at o.state x.0).subject (handler_of o.state x.0) }
    ensures { IfOk result (λ j. drawn_as j ≡ drawn_of o.inputs o.state x) }
{
    judge(
        alloc,
        &run.adapters,
        &run.book,
        &run.world,
        &run.course.packets,
        x,
    )
}

/// The entries that were drawn; none where a rule is broken.
pub(crate) fn verdicts_in(alloc: Global, judgement: Judgement) -> Vec<Entry>
    ensures { result.items ≡ entries_of (drawn_as judgement) }
{
    match judgement {
        Judgement::Breaks(_) => Vec::new(alloc),
        Judgement::Draws(entries) => entries,
    }
}

/// Makes room in a log for so many entries more.
pub(crate) fn make_room(log: &mut Log, more: u64) -> Result<(), OutOfMemory>
    ensures entries { log.new.entries ≡ log.old.entries }
    ensures spare { log.old.spare ≤ log.new.spare }
    ensures ok { OnOk result (log.old.spare + more ≤ log.new.spare) }
{
    match log.spare().checked_add(more) {
        Some(room) => log.reserve(room),
        None => Err(OutOfMemory),
    }
}
