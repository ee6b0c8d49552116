//! What a context does: turns, faults, calls, replies.

ghost use Rattle.std.specs.Prelude.{◌≡◌, ◌<◌, ◌+◌, ◌^◌, true, false};
ghost use Rattle.call_log.specs.declared.entry.Entry.TheVariants as entries;
ghost use Rattle.import_table.specs.Table.{row_of, seen};
ghost use Rattle.ia32_step.specs.Machine.{outcome};
ghost use Rattle.legal_run.specs.After.{import_of, machine_of, reaches};
ghost use Rattle.legal_run.specs.Run.{faults_as};
ghost use Rattle.miniport_state.specs.Seen.{IsAt, Point};
ghost use Rattle.miniport.specs.Steps.{Goes, MayCall, MayTurn};
ghost use Rattle.miniport.specs.Replies.{MayReply};
ghost use Rattle.legal_run.specs.VerdictLaws.{is_send};
ghost use Rattle.handler_entries.specs.Entries.{MayEnter};
ghost use Rattle.handler_leaves.specs.Leaves.{IsVerdict, MayLeave};
ghost use Rattle.run_moves.specs.Runs.{expirations, EntersOr, Grows, IsAnswering, IsRun, LeavesTo, TurnsTo};

use crate::running::Running;
use call_log::{FaultKind, Handler, Words};
use guest_world::Reply;
use handler_entries::{Entering, enter};
use handler_leaves::leave;
use ia32_step::Stepped;
use import_table::ImportRow;
use legal_run::run_laws;
use miniport::{call, fault, reply, turn};
use miniport_state::Calling;
use nd_base::{Addr, Breach, CtxNo, OutOfMemory};

/// How many timers and hang checks have expired behind the enter of a handler.
fn expirations(before: u64, handler: Handler) -> u64
    requires { before + 1 < 2 ^ 64 }
    ensures { result ≡ expirations before handler }
{
    match handler {
        Handler::Timer | Handler::CheckForHang => before + 1,
        _ => before,
    }
}

impl Running {
    /// Makes a turn of a context, and writes it where it made an instruction. Answers what a step would
    /// answer behind it (`Went` where that is not known), or nothing where the budget is reached.
    pub fn turn(&mut self, x: CtxNo) -> Option<Stepped>
        ghost o: { Point }
        requires run { IsRun o self.old }
        requires may { MayTurn o x }
        requires time { self.old.world.clock.clock + 64 < 2 ^ 64 }
        requires spare { 0 < self.old.log.spare }
        ensures { TurnsTo o x self.old self.new result }
    {
        run_laws();
        turn(
            &mut self.adapters,
            x,
            &mut self.book,
            &mut self.world,
            &mut self.log,
        )
    }

    /// The next instruction of a context has no result.
    pub fn fault(&mut self, x: CtxNo, kind: FaultKind, address: Addr)
        ghost o: { Point }
        requires run { IsRun o self.old }
        requires goes { Goes o x }
        requires faults { faults_as (outcome (machine_of o.state x)) kind address.0 ≡ true }
        requires spare { 0 < self.old.log.spare }
        ensures { Grows o (entries.Fault x kind address) self.old self.new }
    {
        run_laws();
        fault(x, kind, address, &mut self.book, &mut self.log);
    }

    /// A context calls an import, and the call stays open.
    pub fn call(&mut self, x: CtxNo, calling: Calling, words: Words)
        ghost o: { Point }
        requires run { IsRun o self.old }
        requires may { MayCall o x calling words }
        requires spare { 0 < self.old.log.spare }
        ensures { Grows o (entries.Call x calling.import words) self.old self.new }
    {
        run_laws();
        call(
            &mut self.adapters,
            x,
            calling,
            words,
            &mut self.book,
            &mut self.log,
        );
    }

    /// The open call of a context is answered, and it goes on behind the call. The world is the one that
    /// the call's import left. Answers whether the budget is reached.
    pub fn reply(&mut self, x: CtxNo, row: &ImportRow, answer: Reply) -> bool
        ghost o: { Point }
        requires run { IsAnswering o self.old }
        requires row { seen row.now ≡ row_of (import_of o.state x) }
        requires may { MayReply o x answer self.old.world }
        requires spare { 0 < self.old.log.spare }
        ensures grows { Grows o (entries.Reply x answer.eax answer.writes) self.old self.new }
        ensures spent { result ≡ reaches o.inputs o.state x answer.cost }
    {
        run_laws();
        reply(
            &mut self.adapters,
            x,
            row,
            answer,
            &mut self.book,
            &mut self.world,
            &mut self.log,
        )
    }

    /// A handler that sends no packets is entered.
    ///
    /// # Errors
    /// [`OutOfMemory`] where the book wants memory; nothing has changed then.
    pub fn enter(&mut self, x: CtxNo, entering: Entering) -> Result<(), OutOfMemory>
        ghost o: { Point }
        requires run { IsRun o self.old }
        requires may { MayEnter o x entering }
        requires sends { is_send entering.handler ≡ false }
        requires few { self.old.course.expired + 1 < 2 ^ 64 }
        requires spare { 0 < self.old.log.spare }
        ensures { EntersOr o x entering self.old self.new result }
    {
        run_laws();
        let expired = expirations(self.course.expired, entering.handler);
        enter(
            &mut self.adapters,
            x,
            entering,
            &mut self.book,
            &mut self.world,
            &mut self.log,
        )?;
        self.course.expired = expired;
        Ok(())
    }

    /// The handler of a context has returned. What other subjects say of the leave is given: the rule that
    /// its verdicts on packets and requests, its status or its attributes break.
    ///
    /// # Errors
    /// The rule that it breaks, of levels and locks first.
    pub fn leave(&mut self, x: CtxNo, verdict: Option<Breach>) -> Result<(Handler, u32), Breach>
        ghost o: { Point }
        requires run { IsRun o self.old }
        requires may { MayLeave o x }
        requires verdict { IsVerdict o.inputs o.state x verdict }
        requires spare { 0 < self.old.log.spare }
        ensures { LeavesTo o x self.old self.new result }
    {
        run_laws();
        leave(
            &mut self.adapters,
            x,
            verdict,
            &mut self.book,
            &mut self.world,
            &mut self.log,
        )
    }
}
