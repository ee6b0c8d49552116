//! A run of DriverEntry alone, from its first instruction to its end.

ghost use Rattle.std.specs.Prelude.{◌≡◌, ◌≢◌, ℕ, ◌+◌, ◌<◌, ◌≤◌, length, [], ◌∷◌, take, OnOk, OnErr, IfOk, IfSome, IfNone, Ok, Err};
ghost use Rattle.std.specs.Prelude.{true, nat_le};
ghost use Rattle.std.specs.FinMap as map;
ghost use Rattle.nd_base.specs.declared.numbers.Slot.TheVariants.{Import, Leave};
ghost use Rattle.call_log.specs.declared.entry.Entry.TheVariants as entries;
ghost use Rattle.ia32_step.specs.Machine.{outcome, answer_to, Trapped};
ghost use Rattle.import_table.specs.Table.{seen, row_of};
ghost use Rattle.import_table.specs.Arguments.{arguments};
ghost use Rattle.guest_calls.specs.Rows.{words_of, IsCall};
ghost use Rattle.legal_run.specs.Run.{is_kind, faults_as, words_read};
ghost use Rattle.entry_run.specs.Laws.{entering, first};
ghost use Rattle.entry_calls.specs.Laws.{AreWords};
ghost use Rattle.entry_session.specs.Session.{Setting, going_of, machine_of, IsRunning, Ends, GoesOn, Turns};
ghost use Rattle.entry_session.specs.Replying.{Before, Asked, MayReply, Sleeping, MaySleep, Waits};

use call_log::{Entry, FaultKind, Handler, Log, Words, Writes};
use entry_calls::calls_of_driver_entry;
use entry_run::entry_laws;
use entry_start::{CONTEXT, DRIVER_ENTRY_WORDS, entered_memory, entered_registers};
use guest_calls::{answer, resumed};
use guest_code::{make_turn, returned};
use guest_world::{Answer, CallRefusal, Caller, Reply, World};
use guest_writes::put_all;
use ia32_step::{Regs, Stepped};
use import_table::{Call, ImportRow, arguments, call_laws, import_row, table_laws};
use legal_run::{calls_keep, run_laws};
use nd_base::{Addr, Layout, OutOfMemory, Slot, Status};
use nd_mem::Memory;
use pe_image::{Image, ImportAddresses};
use std::alloc::Global;

/// How DriverEntry ended.
#[derive(Clone, Copy, Debug, PartialEq, Eq)]
pub enum Ending {
    /// It returned this status.
    Left(Status),
    /// An instruction had no result, or a call or its return broke a rule.
    Faulting,
    /// The budget is spent.
    Spent,
}

/// The largest budget, in instructions and microseconds of calls.
pub const MOST_BUDGET: u32 = 8_000_000;

/// A turn ends at this many instructions.
const TURN_LENGTH: u64 = 64;

/// The number of the register that a status is returned in.
const EAX: usize = 0;

/// DriverEntry calls for no adapter.
const CALLER: Caller = Caller {
    context: CONTEXT,
    adapter: None,
    handler: Handler::DriverEntry,
};

/// A run of DriverEntry.
#[derive(Drop)]
pub struct Session {
    world: World,
    regs: Regs,
    /// What it may be charged in all.
    budget: u32,
    /// What it was charged: an instruction costs one, a call the microseconds that it takes.
    pub charged: u64,
    pub log: Log,
}

/// The entry that enters DriverEntry.
fn entering(alloc: Global) -> Result<Entry, OutOfMemory>
    ensures { IfOk result (λ entry. entry ≡ entering) }
{
    let words = Words::copy(alloc, &DRIVER_ENTRY_WORDS)?;
    Ok(Entry::Enter {
        adapter: None,
        context: CONTEXT,
        handler: Handler::DriverEntry,
        words,
        writes: Writes::new(alloc),
    })
}

/// A log whose one entry enters DriverEntry.
fn entered_log(alloc: Global) -> Result<Log, OutOfMemory>
    ensures { IfOk result (λ log. log.entries ≡ entering ∷ []) }
{
    let mut log = Log::new(alloc);
    log.push(entering(alloc)?)?;
    Ok(log)
}

/// How a log names what kind of fault an instruction made.
fn logged_kind(kind: ia32_step::FaultKind) -> FaultKind
    ensures { is_kind kind result ≡ true }
{
    match kind {
        ia32_step::FaultKind::DivideError => FaultKind::Divide,
        ia32_step::FaultKind::Outside => FaultKind::Outside,
        ia32_step::FaultKind::Unmapped => FaultKind::Unmapped,
        ia32_step::FaultKind::NotReadable => FaultKind::NotReadable,
        ia32_step::FaultKind::NotWritable => FaultKind::NotWritable,
        ia32_step::FaultKind::NotExecutable => FaultKind::NotExecutable,
    }
}

/// As much of a call of an import as can be read.
fn call_of(row: &ImportRow, regs: &Regs, memory: &Memory) -> Call
    requires { (1 ≤ row.now.import) × (row.now.import ≤ 64) }
    ensures words { words_of result ≡ words_read (arguments (seen row.now) regs.now (map.get memory.now)) }
    ensures import { result.import ≡ row.now.import }
    ensures call { IsCall result }
    ensures fits { AreWords result.words }
{
    call_laws();
    match arguments(row, regs, memory) {
        Ok(call) => call,
        Err(cut) => cut.call,
    }
}

/// The entry of a call.
fn calling(alloc: Global, call: &Call) -> Result<Entry, OutOfMemory>
    ensures { IfOk result (λ entry. entry ≡ entries.Call first call.now.import (words_of call.now)) }
{
    let count = usize::from(call.count).min(call.words.len());
    let words = Words::copy(alloc, &call.words[..count])?;
    Ok(Entry::Call {
        context: CONTEXT,
        import: call.import,
        words,
    })
}

impl Session {
    /// Begins DriverEntry of an image whose imports have these addresses, with this budget.
    ///
    /// # Errors
    /// [`OutOfMemory`] where no memory is left.
    pub fn enter(
        alloc: Global,
        image: &Image,
        slots: &ImportAddresses,
        layout: Layout,
        budget: u32,
    ) -> Result<Session, OutOfMemory>
        requires some { 0 < budget }
        requires most { budget ≤ 8000000 }
        requires slots { length slots.now ≡ length image.now.imports }
        ensures { IfOk result (IsRunning (record { image = image.now; slots = slots.now; budget = budget; layout = layout })) }
    {
        entry_laws();
        run_laws();
        let regs = entered_registers(image);
        let memory = entered_memory(alloc, image, slots)?;
        let mut world = World::new(alloc, layout, memory)?;
        world.levels.begin(CONTEXT, 0);
        let log = entered_log(alloc)?;
        Ok(Session {
            world,
            regs,
            budget,
            charged: 0,
            log,
        })
    }

    /// Whether what was charged has reached the budget.
    fn is_spent(&self) -> bool
        ensures { result ≡ nat_le self.now.budget self.now.charged }
    {
        u64::from(self.budget) <= self.charged
    }

    /// Makes one turn, and logs it where it made an instruction. Answers what a step would answer
    /// behind it, or nothing where the budget is spent.
    fn turn(&mut self) -> Result<Option<Stepped>, OutOfMemory>
        ghost setting: { Setting }
        requires { IsRunning setting self.old }
        ensures { Turns setting self.old self.new result }
    {
        entry_laws();
        run_laws();
        let most = (u64::from(self.budget) - self.charged).min(TURN_LENGTH) as u8;
        let turned = make_turn(&mut self.regs, &mut self.world.memory, most);
        if turned.count == 0 {
            return Ok(Some(turned.last));
        }
        let count = u64::from(turned.count);
        self.log.push(Entry::Turn {
            context: CONTEXT,
            count,
        })?;
        self.world.clock.rise(count);
        self.charged += count;
        if self.is_spent() {
            return Ok(None);
        }
        Ok(Some(turned.last))
    }

    /// Logs that the next instruction has no result.
    fn fault(&mut self, kind: FaultKind, address: Addr) -> Result<Ending, OutOfMemory>
        ghost setting: { Setting }
        requires running { IsRunning setting self.old }
        requires faults { faults_as (outcome (machine_of self.old)) kind address.0 ≡ true }
        ensures { Ends setting self.old self.new result }
    {
        entry_laws();
        run_laws();
        self.log.push(Entry::Fault {
            context: CONTEXT,
            kind,
            address,
        })?;
        Ok(Ending::Faulting)
    }

    /// Logs that the handler returned. A level that it has not put back and a lock that it holds
    /// break a rule.
    fn leave(&mut self) -> Result<Ending, OutOfMemory>
        ghost setting: { Setting }
        requires running { IsRunning setting self.old }
        requires leaves { outcome (machine_of self.old) ≡ Trapped Leave }
        ensures { Ends setting self.old self.new result }
    {
        entry_laws();
        run_laws();
        let eax = self.regs.general[EAX];
        self.log.push(Entry::Leave {
            context: CONTEXT,
            eax,
        })?;
        match self.world.levels.leave(CONTEXT) {
            Ok(()) => Ok(Ending::Left(Status(eax))),
            Err(_) => Ok(Ending::Faulting),
        }
    }

    /// Logs a reply, makes its writes, and goes on behind the call.
    fn reply(&mut self, row: &ImportRow, reply: Reply) -> Result<Option<Ending>, OutOfMemory>
        ghost asked: { Asked }
        requires row { seen row.now ≡ row_of asked.import }
        requires may { MayReply asked self.old reply }
        ensures { GoesOn asked.setting self.old self.new result }
    {
        run_laws();
        let Reply {
            eax,
            writes,
            cost,
            ..
        } = reply;
        self.regs = returned(&self.world.memory, &self.regs, row, eax);
        put_all(&mut self.world.memory, &writes);
        self.log.push(Entry::Reply {
            context: CONTEXT,
            eax,
            writes,
        })?;
        self.world.clock.rise(cost);
        self.charged += cost;
        if self.is_spent() {
            return Ok(Some(Ending::Spent));
        }
        Ok(None)
    }

    /// Waits for the moment at which a call wakes: the clock goes on to it, where it is not there yet.
    fn wait(&mut self, wake: u64) -> Result<(), OutOfMemory>
        ghost sleeping: { Sleeping }
        requires wake { wake ≡ sleeping.wake }
        requires may { MaySleep sleeping self.old }
        ensures { Waits sleeping self.old self.new result }
    {
        entry_laws();
        run_laws();
        let now = self.world.clock.now();
        if wake <= now {
            return Ok(());
        }
        self.log.push(Entry::Time { clock: wake })?;
        self.world.clock.rise(wake - now);
        Ok(())
    }

    /// Waits for the moment at which a call wakes, and answers it.
    fn sleep(
        &mut self,
        alloc: Global,
        row: &ImportRow,
        wake: u64,
    ) -> Result<Option<Ending>, OutOfMemory>
        ghost sleeping: { Sleeping }
        requires row { seen row.now ≡ row_of sleeping.import }
        requires import { row.now.import ≡ sleeping.import }
        requires wake { wake ≡ sleeping.wake }
        requires may { MaySleep sleeping self.old }
        ensures { GoesOn sleeping.setting self.old self.new result }
    {
        entry_laws();
        self.wait(wake)?;
        self.reply(row, resumed(alloc, row.import, 0))
    }

    /// Makes a call of an import, up to its reply.
    fn call(&mut self, alloc: Global, import: u8) -> Result<Option<Ending>, OutOfMemory>
        ghost before: { Before }
        requires running { IsRunning before.setting self.old }
        requires going { before.going ≡ going_of self.old }
        requires calls { outcome (machine_of self.old) ≡ Trapped (Import import) }
        ensures { GoesOn before.setting self.old self.new result }
    {
        call_laws();
        calls_keep();
        calls_of_driver_entry();
        entry_laws();
        run_laws();
        table_laws();
        let row = import_row(import);
        let call = call_of(row, &self.regs, &self.world.memory);
        self.log.push(calling(alloc, &call)?)?;
        match answer(alloc, &mut self.world, CALLER, &call) {
            Ok(Answer::Now(reply)) => self.reply(row, reply),
            Ok(Answer::Sleep(wake)) => self.sleep(alloc, row, wake),
            Ok(Answer::Spin(_)) => unreachable!(),
            Ok(Answer::Sync) => unreachable!(),
            Err(CallRefusal::Broken(_)) => Ok(Some(Ending::Faulting)),
            Err(CallRefusal::OutOfMemory) => Err(OutOfMemory),
        }
    }

    /// One turn and what ends it. Answers how DriverEntry ended, if it did.
    fn go_on(&mut self, alloc: Global) -> Result<Option<Ending>, OutOfMemory>
        ghost setting: { Setting }
        requires { IsRunning setting self.old }
        ensures { GoesOn setting self.old self.new result }
    {
        match self.turn()? {
            None => Ok(Some(Ending::Spent)),
            Some(Stepped::Went) => Ok(None),
            Some(Stepped::Trap(Slot::Leave)) => Ok(Some(self.leave()?)),
            Some(Stepped::Trap(Slot::Import(import))) => self.call(alloc, import),
            Some(Stepped::Fault(kind, address)) => {
                Ok(Some(self.fault(logged_kind(kind), address)?))
            }
        }
    }

    /// Goes on to the end of DriverEntry. Where memory is wanted, the log is a run as far as it has
    /// come.
    ///
    /// # Errors
    /// [`OutOfMemory`] where no memory is left.
    pub fn finish(&mut self, alloc: Global) -> Result<Ending, OutOfMemory>
        ghost setting: { Setting }
        requires { IsRunning setting self.old }
        ensures { Ends setting self.old self.new result }
    {
        loop {
            if let Some(ending) = self.go_on(alloc)? {
                return Ok(ending);
            }
        }
    }
}
