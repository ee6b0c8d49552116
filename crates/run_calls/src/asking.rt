//! What a context calls: the import and its words, and who calls.

ghost use Rattle.std.specs.Prelude.{◌≡◌, ◌≤◌, ◌<◌, [], length, true, IfOk, Ok};
ghost use Rattle.std.specs.FinMap as map;
ghost use Rattle.import_table.specs.Table.{seen};
ghost use Rattle.import_table.specs.Arguments.{arguments};
ghost use Rattle.guest_world.specs.declared.answer.Answer.TheVariants.{Now};
ghost use Rattle.import_answers.specs.Outcomes.{Comes};
ghost use Rattle.import_answers.specs.World.{IsNumber};
ghost use Rattle.call_verdicts.specs.Deeds.{did_as};
ghost use Rattle.run_calls.specs.Answering.{is_served};
ghost use Rattle.guest_calls.specs.Rows.{words_of, IsCall};
ghost use Rattle.call_facts.specs.Costs.{AreWords};
ghost use Rattle.legal_run.specs.State.{adapter_of, caller};
ghost use Rattle.legal_run.specs.Calls.{did, outcome_of};
ghost use Rattle.legal_run.specs.Run.{call_words, words_read};
ghost use Rattle.miniport_state.specs.Seen.{Point};
ghost use Rattle.miniport_state.specs.Views.{wait_of};
ghost use Rattle.run_moves.specs.Runs.{IsAnswering, IsRun};

use call_log::Words;
use call_verdicts::{Deed, made};
use guest_world::{Caller, Reply};
use ia32_step::Regs;
use import_table::{Call, ImportRow, arguments, call_laws, import_row, table_laws};
use log_fields::{Handler, Writes};
use miniport::registers_at;
use miniport_state::{Calling, Wait};
use nd_base::{CtxNo, OutOfMemory};
use nd_mem::Memory;
use owner_machine::Context;
use run_moves::Running;
use std::alloc::Global;

/// As much of a call of an import as can be read.
fn call_of(row: &ImportRow, regs: &Regs, memory: &Memory) -> Call
    requires { (1 ≤ row.now.import) × (row.now.import ≤ 64) }
    ensures words { words_of result ≡ words_read (arguments (seen row.now) regs.now (map.get memory.now)) }
    ensures import { result.import ≡ row.now.import }
    ensures call { IsCall result }
    ensures fits { AreWords result.words }
{
    call_laws();
    match arguments(row, regs, memory) {
        Ok(call) => call,
        Err(cut) => cut.call,
    }
}

/// A context's call of an import, as much of it as can be read.
pub(crate) fn asked(run: &Running, x: CtxNo, import: u8) -> Call
    ghost o: { Point }
    requires run { IsRun o run.now }
    requires number { x.0 < 16 }
    requires import { (1 ≤ import) × (import ≤ 64) }
    ensures words { words_of result ≡ call_words o.state x import }
    ensures import { result.import ≡ import }
    ensures call { IsCall result }
    ensures fits { AreWords result.words }
{
    table_laws();
    let registers = registers_at(&run.adapters, x);
    call_of(import_row(import), &registers, &run.world.memory)
}

/// The words of a call.
pub(crate) fn words_of(alloc: Global, call: &Call) -> Result<Words, OutOfMemory>
    ensures { IfOk result (λ words. words ≡ words_of call.now) }
{
    let count = usize::from(call.count).min(call.words.len());
    Words::copy(alloc, &call.words[..count])
}

/// A call that is open, and waits for something.
pub(crate) fn opened(alloc: Global, import: u8, words: Words, wait: Wait) -> Calling
    ensures { result ≡ record { import = import; words = words; wait = wait_of wait; writes = [] } }
{
    Calling {
        import,
        words,
        wait,
        writes: Writes::new(alloc),
    }
}

/// Who calls, where a context does.
pub(crate) fn caller_of(run: &Running, x: CtxNo) -> Caller
    ghost o: { Point }
    requires { IsRun o run.now }
    ensures { result ≡ caller o.state x }
{
    match run.book.context(x) {
        Some(
            Context::Open {
                adapter,
                handler,
                ..
            },
        ) => Caller {
            context: x,
            adapter,
            handler,
        },
        _ => Caller {
            context: x,
            adapter: None,
            handler: Handler::DriverEntry,
        },
    }
}

/// What a call does that its row has answered at once. The world is the one behind its answer.
#[tactic(auto, using(crate::proofs::Deeds::can_serve))]
pub(crate) fn judged(
    run: &Running,
    alloc: Global,
    x: CtxNo,
    call: &Call,
    reply: &Reply,
) -> Result<Deed, OutOfMemory>
    ghost o: { Point }
    requires run { IsAnswering o run.now }
    requires number { IsNumber (adapter_of o.state x.0) }
    requires drivers { length o.state.owner.drivers ≤ 256 }
    requires comes { Comes (outcome_of o.state x call.now.import (words_of call.now)) o.state.world (Ok (Now reply.now)) run.now.world }
    requires served { is_served call.now.import ≡ true }
    ensures { IfOk result (λ d. did_as d ≡ did o.state x call.now.import (words_of call.now)) }
{
    made(
        alloc,
        &run.book,
        &run.world,
        &run.course.packets,
        x,
        call,
        reply,
    )
}
