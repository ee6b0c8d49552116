//! Verdicts, one after the other.

ghost use Rattle.std.specs.Prelude.{◌∷◌};
ghost use Rattle.legal_run.specs.State.{Inputs};
ghost use Rattle.run_leaves.specs.Leaving.{IsWriting, SettlesOr, WritesOnOr, rest_of};

use crate::aborts::abort_held;
use call_log::Entry;
use due_moves::{answer, complete, end_reset, requeue};
use legal_run::run_laws;
use nd_base::OutOfMemory;
use run_moves::Running;
use run_stops::moves_add;
use stop_rooms::rooms_stay;

/// Writes a verdict; behind the end of a reset, what it aborts.
fn write_verdict(run: &mut Running, verdict: Entry) -> Result<(), OutOfMemory>
    ghost c: { Inputs }
    requires { IsWriting c (verdict ∷ rest_of c run.old) run.old }
    ensures { WritesOnOr c (rest_of c run.old) run.old run.new result }
{
    moves_add();
    rooms_stay();
    run_laws();
    match verdict {
        Entry::Complete { packet, status } => complete(run, packet, status),
        Entry::Requeue { packet } => requeue(run, packet),
        Entry::ResetEnd { adapter, status } => {
            end_reset(run, adapter, status);
            abort_held(run, adapter);
        }
        Entry::Answer {
            request,
            status,
            bytes,
        } => return answer(run, request, status, bytes),
        _ => unreachable!(),
    }
    Ok(())
}

/// Writes the verdicts that must stand.
///
/// # Errors
/// [`OutOfMemory`] where the book wants memory for an answer.
pub(crate) fn write_verdicts(run: &mut Running, verdicts: Vec<Entry>) -> Result<(), OutOfMemory>
    ghost c: { Inputs }
    requires { IsWriting c verdicts.items run.old }
    ensures { SettlesOr c run.old run.new result }
{
    let mut verdicts = verdicts;
    'verdicts: while !verdicts.is_empty() {
        write_verdict(run, verdicts.remove(0))?;
    }
    Ok(())
}
