//! Turns, and what ends them.

ghost use Rattle.std.specs.Prelude.{◌≡◌, ◌<◌, ◌≤◌, ◌+◌, ◌^◌, length, true, false};
ghost use Rattle.ia32_step.specs.Machine.{outcome};
ghost use Rattle.call_log.specs.declared.entry.Entry.TheVariants as entries;
ghost use Rattle.owner_book.specs.Stopping.{stop_room};
ghost use Rattle.legal_run.specs.State.{Inputs};
ghost use Rattle.legal_run.specs.After.{machine_of, reaches};
ghost use Rattle.legal_run.specs.Owed.{frame_due};
ghost use Rattle.legal_run.specs.Run.{faults_as, is_going, is_kind};
ghost use Rattle.run_stops.specs.Standing.{IsSettled, SettlesBy, state_of};
ghost use Rattle.run_stops.specs.Stopping.{owner_of};
ghost use Rattle.run_turns.specs.Reaching.{ReachesTo};

use call_log::{Cause, FaultKind};
use ia32_step::Stepped;
use miniport::adapter_of;
use nd_base::{Addr, Breach, CtxNo, Slot};
use run_facts::contexts_are_ready;
use run_moves::Running;
use run_stops::{moves_add, states_are_free, stop_for};
use std::alloc::Global;

/// Where a turn ended.
#[derive(Clone, Copy, Debug, PartialEq, Eq)]
pub enum Reached {
    /// At its most instructions, or with the stops that its budget or a fault brought.
    Done,
    /// At the slot of an import.
    Import(u8),
    /// At the slot to which a handler returns.
    Leave,
}

/// The rule that a fault breaks.
const FAULT: Breach = Breach(8);

/// How a log names what kind of fault an instruction made.
fn logged_kind(kind: ia32_step::FaultKind) -> FaultKind
    ensures { is_kind kind result ≡ true }
{
    match kind {
        ia32_step::FaultKind::DivideError => FaultKind::Divide,
        ia32_step::FaultKind::Outside => FaultKind::Outside,
        ia32_step::FaultKind::Unmapped => FaultKind::Unmapped,
        ia32_step::FaultKind::NotReadable => FaultKind::NotReadable,
        ia32_step::FaultKind::NotWritable => FaultKind::NotWritable,
        ia32_step::FaultKind::NotExecutable => FaultKind::NotExecutable,
    }
}

/// The next instruction of a context has no result: its adapter is stopped.
fn end_by_fault(run: &mut Running, alloc: Global, x: CtxNo, kind: FaultKind, address: Addr)
    ghost c: { Inputs }
    requires settled { IsSettled c run.old }
    requires number { x.0 < 16 }
    requires going { is_going c (state_of c run.old) x ≡ true }
    requires faults { faults_as (outcome (machine_of (state_of c run.old) x)) kind address.0 ≡ true }
    requires adapters { length c.adapters < 256 }
    requires drivers { length c.drivers < 256 }
    requires spare { stop_room (owner_of c run.old) < run.old.log.spare }
    ensures { SettlesBy c (entries.Fault x kind address) run.old run.new }
{
    contexts_are_ready();
    run.fault(x, kind, address);
    let adapter = adapter_of(&run.book, x);
    stop_for(run, alloc, adapter, Cause::Breach(FAULT));
}

/// A turn of a context that goes on, with the stops where it reaches the budget or an instruction has no
/// result.
pub fn go_on(run: &mut Running, alloc: Global, x: CtxNo) -> Reached
    ghost c: { Inputs }
    requires settled { IsSettled c run.old }
    requires number { x.0 < 16 }
    requires going { is_going c (state_of c run.old) x ≡ true }
    requires frames { frame_due c (state_of c run.old) ≡ false }
    requires unspent { reaches c (state_of c run.old) x 0 ≡ false }
    requires time { run.old.world.clock.clock + 64 < 2 ^ 64 }
    requires adapters { length c.adapters < 256 }
    requires drivers { length c.drivers < 256 }
    requires spare { stop_room (owner_of c run.old) + 1 < run.old.log.spare }
    ensures { ReachesTo c x run.old run.new result }
{
    contexts_are_ready();
    moves_add();
    states_are_free();
    match run.turn(x) {
        None => {
            let adapter = adapter_of(&run.book, x);
            stop_for(run, alloc, adapter, Cause::Budget);
            Reached::Done
        }
        Some(Stepped::Went) => Reached::Done,
        Some(Stepped::Trap(Slot::Import(import))) => Reached::Import(import),
        Some(Stepped::Trap(Slot::Leave)) => Reached::Leave,
        Some(Stepped::Fault(kind, address)) => {
            end_by_fault(run, alloc, x, logged_kind(kind), address);
            Reached::Done
        }
    }
}
