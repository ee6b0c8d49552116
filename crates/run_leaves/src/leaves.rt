//! Leaves, whole.

ghost use Rattle.std.specs.Prelude.{◌≡◌, ◌<◌, ◌≤◌, ◌+◌, ◌^◌, length, true};
ghost use Rattle.std.specs.Option.{option_map};
ghost use Rattle.call_log.specs.declared.entry.Entry.TheVariants as entries;
ghost use Rattle.guest_world.specs.Worlds.{longest_time};
ghost use Rattle.ia32_step.specs.Machine.{outcome};
ghost use Rattle.owner_book.specs.Stopping.{stop_room};
ghost use Rattle.legal_run.specs.State.{Inputs};
ghost use Rattle.legal_run.specs.After.{machine_of};
ghost use Rattle.legal_run.specs.Run.{is_at_leave, is_going};
ghost use Rattle.call_facts.specs.Places.{FitsMap};
ghost use Rattle.handler_leaves.specs.Leaves.{broken, status_of};
ghost use Rattle.run_stops.specs.Standing.{IsGiven, IsSettled, SettlesByOr, state_of};
ghost use Rattle.run_stops.specs.Stopping.{owner_of};
ghost use Rattle.run_leaves.specs.Leaving.{Returns, drawn_of, entries_of};

use crate::judged::{judged, make_room, verdicts_in};
use crate::verdicts::write_verdicts;
use call_facts::own_places_are_readable;
use call_log::{Cause, Entry};
use leave_verdicts::broken;
use legal_run::run_laws;
use miniport::adapter_of;
use nd_base::{Breach, CtxNo, OutOfMemory};
use run_duties::stops_may_stand;
use run_facts::{adapters_are_given, calls_can_be_answered, contexts_are_ready, periods_are_short};
use run_moves::Running;
use run_stops::{moves_add, stop_for};
use std::alloc::Global;
use stop_rooms::rooms_stay;

/// The leave of a context's handler, which was judged, and what stands behind it.
fn leave_judged(
    run: &mut Running,
    alloc: Global,
    x: CtxNo,
    rule: Option<Breach>,
    verdicts: Vec<Entry>,
) -> Result<(), OutOfMemory>
    ghost c: { Inputs }
    requires returns { Returns c x run.old }
    requires given { IsGiven c }
    requires number { x.0 < 16 }
    requires rule { option_map (λ b. b.0) rule ≡ broken (drawn_of c (state_of c run.old) x) }
    requires drawn { verdicts.items ≡ entries_of (drawn_of c (state_of c run.old) x) }
    requires room { stop_room (owner_of c run.old) + length verdicts.items + 1 ≤ run.old.log.spare }
    ensures { SettlesByOr c (entries.Leave x (status_of (state_of c run.old) x)) run.old run.new result }
{
    adapters_are_given();
    contexts_are_ready();
    periods_are_short();
    stops_may_stand();
    moves_add();
    rooms_stay();
    run_laws();
    let adapter = adapter_of(&run.book, x);
    match run.leave(x, rule) {
        Err(rule) => {
            stop_for(run, alloc, adapter, Cause::Breach(rule));
            Ok(())
        }
        Ok(_) => write_verdicts(run, verdicts),
    }
}

/// The handler of a context returns: its leave, and behind it what is drawn from it, or the stops where it
/// breaks a rule.
///
/// # Errors
/// [`OutOfMemory`] where memory is wanted for what is drawn, or by the book for an answer.
pub fn leave(run: &mut Running, alloc: Global, x: CtxNo) -> Result<(), OutOfMemory>
    ghost c: { Inputs }
    requires settled { IsSettled c run.old }
    requires given { IsGiven c }
    requires fits { FitsMap c }
    requires number { x.0 < 16 }
    requires going { is_going c (state_of c run.old) x ≡ true }
    requires at { is_at_leave (outcome (machine_of (state_of c run.old) x)) ≡ true }
    requires time { run.old.world.clock.clock + longest_time < 2 ^ 64 }
    requires room { stop_room (owner_of c run.old) + 3 ≤ run.old.log.spare }
    ensures { SettlesByOr c (entries.Leave x (status_of (state_of c run.old) x)) run.old run.new result }
{
    calls_can_be_answered();
    own_places_are_readable();
    let judgement = judged(run, alloc, x)?;
    let rule = broken(&judgement);
    let verdicts = verdicts_in(alloc, judgement);
    make_room(&mut run.log, verdicts.len() as u64)?;
    leave_judged(run, alloc, x, rule, verdicts)
}
