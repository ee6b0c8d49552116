//! A call of an import.

ghost use Rattle.std.specs.Prelude.{◌≡◌, ◌<◌, ◌≤◌, ◌+◌, ◌^◌, length, true, Ok, OnOk};
ghost use Rattle.guest_calls.specs.Rows.{words_of};
ghost use Rattle.std.specs.List.{AllByRecursion};
ghost use Rattle.call_log.specs.declared.entry.Entry.TheVariants as entries;
ghost use Rattle.import_table.specs.Table.{row_of, seen};
ghost use Rattle.guest_world.specs.Worlds.{longest_time};
ghost use Rattle.guest_world.specs.declared.answer.Answer.TheVariants.{Now, Spin};
ghost use Rattle.log_fields.specs.Fields.{HasRule};
ghost use Rattle.log_fields.specs.declared.field_values.Cause.TheVariants as cause;
ghost use Rattle.owner_book.specs.Stopping.{stop_room};
ghost use Rattle.ia32_step.specs.Machine.{outcome};
ghost use Rattle.import_answers.specs.Outcomes.{Comes};
ghost use Rattle.import_answers.specs.World.{word};
ghost use Rattle.legal_run.specs.State.{Inputs, clock};
ghost use Rattle.legal_run.specs.After.{machine_of};
ghost use Rattle.legal_run.specs.Calls.{Broken, Waits, did, makes, outcome_of};
ghost use Rattle.legal_run.specs.Run.{call_words, is_at_import, is_going};
ghost use Rattle.miniport.specs.Steps.{MayCall};
ghost use Rattle.run_stops.specs.Standing.{IsGiven, IsSettled, SettlesBy, SettlesByOr, point_of, state_of};
ghost use Rattle.run_stops.specs.Stopping.{owner_of};
ghost use Rattle.run_calls.specs.Answering.{CanReturn, IsAnswer, IsAsking, IsLight, Opens, does_not_spin, is_served};

use crate::asking::{asked, caller_of, judged, opened, words_of};
use crate::makes::make_and_reply;
use crate::moves::{write_call, write_spin};
use call_facts::costs_are_small;
use call_log::{Cause, Entry, Log, Words};
use call_verdicts::Deed;
use guest_calls::answer;
use guest_world::{Answer, CallRefusal, Reply};
use import_table::{Call, ImportRow, call_laws, import_row, table_laws};
use legal_run::run_laws;
use miniport::adapter_of;
use miniport_state::{Calling, Stage, Wait};
use nd_base::{Addr, Breach, CtxNo, OutOfMemory};
use run_facts::{calls_can_be_answered, contexts_are_ready, lists_keep_their_lengths};
use run_moves::Running;
use run_stops::{moves_add, states_are_free, stop_for};
use std::alloc::Global;
use stop_rooms::rooms_stay;

/// A call breaks a rule: its adapter is stopped.
fn break_rule(
    run: &mut Running,
    alloc: Global,
    x: CtxNo,
    calling: Calling,
    words: Words,
    rule: Breach,
)
    ghost c: { Inputs }
    requires settled { IsSettled c run.old }
    requires may { MayCall (point_of c run.old) x calling words }
    requires breaks { did (state_of c run.old) x calling.import words ≡ Broken rule.0 }
    requires range { HasRule (cause.Breach rule) }
    requires given { IsGiven c }
    requires room { stop_room (owner_of c run.old) < run.old.log.spare }
    ensures { SettlesBy c (entries.Call x calling.import words) run.old run.new }
{
    moves_add();
    rooms_stay();
    run_laws();
    let adapter = adapter_of(&run.book, x);
    run.call(x, calling, words);
    stop_for(run, alloc, adapter, Cause::Breach(rule));
}

/// A call waits for a moment, or for the function that it names: nothing stands behind it.
fn wait(run: &mut Running, x: CtxNo, calling: Calling, words: Words)
    ghost c: { Inputs }
    requires settled { IsSettled c run.old }
    requires may { MayCall (point_of c run.old) x calling words }
    requires waits { did (state_of c run.old) x calling.import words ≡ Waits calling.wait }
    requires plain { does_not_spin calling.wait ≡ true }
    requires room { stop_room (owner_of c run.old) < run.old.log.spare }
    ensures { SettlesBy c (entries.Call x calling.import words) run.old run.new }
{
    moves_add();
    rooms_stay();
    run_laws();
    states_are_free();
    run.call(x, calling, words);
}

/// A call waits for a lock that another context holds. The world is the one behind its answer.
fn spin(run: &mut Running, x: CtxNo, calling: Calling, words: Words, lock: Addr, holder: CtxNo)
    ghost c: { Inputs }
    requires asking { IsAsking c run.old }
    requires may { MayCall (point_of c run.old) x calling words }
    requires spins { Comes (outcome_of (state_of c run.old) x calling.import words) (state_of c run.old).world (Ok (Spin holder)) run.old.world }
    requires lock { lock.0 ≡ word words 1 }
    requires room { stop_room (owner_of c run.old) + 1 < run.old.log.spare }
    ensures { SettlesBy c (entries.Call x calling.import words) run.old run.new }
{
    moves_add();
    rooms_stay();
    run_laws();
    states_are_free();
    lists_keep_their_lengths();
    write_call(run, x, calling, words);
    write_spin(run, x, lock);
}

/// A call is answered at once, behind the entries that it makes. The world is the one behind its answer.
fn answer_at_once(
    run: &mut Running,
    alloc: Global,
    x: CtxNo,
    row: &ImportRow,
    calling: Calling,
    words: Words,
    made: Vec<Entry>,
    reply: Reply,
)
    ghost c: { Inputs }
    requires asking { IsAsking c run.old }
    requires may { MayCall (point_of c run.old) x calling words }
    requires makes { did (state_of c run.old) x calling.import words ≡ makes made.items }
    requires light { AllByRecursion IsLight made.items }
    requires answer { IsAnswer (state_of c run.old) x calling.import words reply run.old.world }
    requires row { seen row.now ≡ row_of calling.import }
    requires most { reply.cost ≤ 2 ^ 33 }
    requires returns { CanReturn (state_of c run.old) x }
    requires time { clock (state_of c run.old) + longest_time < 2 ^ 64 }
    requires given { IsGiven c }
    requires room { stop_room (owner_of c run.old) + length made.items + 1 < run.old.log.spare }
    ensures { SettlesBy c (entries.Call x calling.import words) run.old run.new }
{
    lists_keep_their_lengths();
    rooms_stay();
    run_laws();
    write_call(run, x, calling, words);
    make_and_reply(run, alloc, x, row, made, reply);
}

/// Makes room in a log for so many entries more.
fn make_room(log: &mut Log, more: usize) -> Result<(), OutOfMemory>
    ensures entries { log.new.entries ≡ log.old.entries }
    ensures spare { log.old.spare ≤ log.new.spare }
    ensures ok { OnOk result (log.old.spare + more ≤ log.new.spare) }
{
    match log.spare().checked_add(more as u64) {
        Some(room) => log.reserve(room),
        None => Err(OutOfMemory),
    }
}

/// A call is answered at once, where there is room for the entries that it makes.
fn answer_with_room(
    run: &mut Running,
    alloc: Global,
    x: CtxNo,
    row: &ImportRow,
    calling: Calling,
    words: Words,
    made: Vec<Entry>,
    reply: Reply,
) -> Result<(), OutOfMemory>
    ghost c: { Inputs }
    requires asking { IsAsking c run.old }
    requires may { MayCall (point_of c run.old) x calling words }
    requires makes { did (state_of c run.old) x calling.import words ≡ makes made.items }
    requires light { AllByRecursion IsLight made.items }
    requires answer { IsAnswer (state_of c run.old) x calling.import words reply run.old.world }
    requires row { seen row.now ≡ row_of calling.import }
    requires most { reply.cost ≤ 2 ^ 33 }
    requires returns { CanReturn (state_of c run.old) x }
    requires time { clock (state_of c run.old) + longest_time < 2 ^ 64 }
    requires given { IsGiven c }
    requires room { stop_room (owner_of c run.old) + 3 ≤ run.old.log.spare }
    ensures { SettlesByOr c (entries.Call x calling.import words) run.old run.new result }
{
    match make_room(&mut run.log, made.len()) {
        Ok(()) => {}
        Err(OutOfMemory) => return Err(OutOfMemory),
    }
    answer_at_once(run, alloc, x, row, calling, words, made, reply);
    Ok(())
}

/// A call that its row has answered at once: it makes entries and has its reply, or it breaks a rule of
/// packets. The world is the one behind its answer.
fn answer_now(
    run: &mut Running,
    alloc: Global,
    x: CtxNo,
    row: &ImportRow,
    call: &Call,
    calling: Calling,
    words: Words,
    reply: Reply,
) -> Result<(), OutOfMemory>
    ghost c: { Inputs }
    requires asking { IsAsking c run.old }
    requires opens { Opens (point_of c run.old) x calling words }
    requires call { (call.now.import ≡ calling.import) × (words_of call.now ≡ words) }
    requires answer { IsAnswer (state_of c run.old) x calling.import words reply run.old.world }
    requires row { seen row.now ≡ row_of calling.import }
    requires most { reply.cost ≤ 2 ^ 33 }
    requires returns { CanReturn (state_of c run.old) x }
    requires time { clock (state_of c run.old) + longest_time < 2 ^ 64 }
    requires given { IsGiven c }
    requires room { stop_room (owner_of c run.old) + 3 ≤ run.old.log.spare }
    requires served { is_served calling.import ≡ true }
    ensures { SettlesByOr c (entries.Call x calling.import words) run.old run.new result }
{
    calls_can_be_answered();
    lists_keep_their_lengths();
    table_laws();
    match judged(run, alloc, x, call, &reply) {
        Ok(Deed::Broken(rule)) => {
            break_rule(run, alloc, x, calling, words, rule);
            Ok(())
        }
        Ok(Deed::Made(made, _, _)) => {
            answer_with_room(run, alloc, x, row, calling, words, made, reply)
        }
        Ok(Deed::Waits(_)) => unreachable!(),
        Err(OutOfMemory) => Err(OutOfMemory),
    }
}

/// A context calls an import: the call, what it makes, and its reply, or what it waits for; or the stops
/// that it brings, where it breaks a rule or its reply reaches the budget. Served are all imports but
/// NdisMIndicateReceivePacket, NdisMResetComplete, NdisMQueryInformationComplete and
/// NdisMSetInformationComplete.
///
/// # Errors
/// [`OutOfMemory`] where memory is wanted for the call; its entry has not been written then.
pub fn call(run: &mut Running, alloc: Global, x: CtxNo, import: u8) -> Result<(), OutOfMemory>
    ghost c: { Inputs }
    requires settled { IsSettled c run.old }
    requires given { IsGiven c }
    requires number { x.0 < 16 }
    requires going { is_going c (state_of c run.old) x ≡ true }
    requires at { is_at_import (outcome (machine_of (state_of c run.old) x)) import ≡ true }
    requires served { is_served import ≡ true }
    requires time { run.old.world.clock.clock + longest_time < 2 ^ 64 }
    requires room { stop_room (owner_of c run.old) + 3 ≤ run.old.log.spare }
    ensures { SettlesByOr c (entries.Call x import (call_words (state_of c run.old) x import)) run.old run.new result }
{
    call_laws();
    calls_can_be_answered();
    contexts_are_ready();
    costs_are_small();
    let row = import_row(import);
    let call = asked(run, x, import);
    let words = words_of(alloc, &call)?;
    let kept = words_of(alloc, &call)?;
    let caller = caller_of(run, x);
    match answer(alloc, &mut run.world, caller, &call) {
        Ok(Answer::Now(reply)) => {
            let calling = opened(alloc, import, kept, Wait::Nothing);
            return answer_now(run, alloc, x, row, &call, calling, words, reply);
        }
        Ok(Answer::Spin(holder)) => {
            let lock = Addr(call.words[0]);
            let calling = opened(alloc, import, kept, Wait::OnLock(lock));
            spin(run, x, calling, words, lock, holder);
        }
        Ok(Answer::Sleep(wake)) => {
            let calling = opened(alloc, import, kept, Wait::OnClock(wake));
            wait(run, x, calling, words);
        }
        Ok(Answer::Sync) => {
            let calling = opened(alloc, import, kept, Wait::OnSync(Stage::Needed));
            wait(run, x, calling, words);
        }
        Err(CallRefusal::Broken(rule)) => {
            let calling = opened(alloc, import, kept, Wait::Nothing);
            break_rule(run, alloc, x, calling, words, rule);
        }
        Err(CallRefusal::OutOfMemory) => return Err(OutOfMemory),
    }
    Ok(())
}
