//! The book of owners.

ghost use Rattle.std.specs.Prelude.{◌≡◌, ◌<◌, ◌+◌, ◌^◌, ◌&&◌, ℕ, true, IfOk, OnOk, OnErr, length, slice_get, max, option_copied};
ghost use Rattle.std.specs.Option.{option_map};
ghost use Rattle.log_fields.specs.Fields.{HasRule};
ghost use Rattle.owner_machine.specs.State.{stands, implies};
ghost use Rattle.owner_machine.specs.Contexts.{in_brackets, is_dpc, is_halt, none_runs};
ghost use Rattle.owner_machine.specs.Handlers.{may_halt, outstanding};
ghost use Rattle.owner_machine.specs.Legal.{start, with_handlers, said_nothing};
ghost use Rattle.owner_book.specs.Admitting.{Admits};
ghost use Rattle.owner_book.specs.Standings.{IsStanding, told_of_bound, first_cancel, first_event};
ghost use Rattle.owner_book.specs.Stopping.{Stops, stop_room};

use crate::handler_moves::stop;
use crate::moves::take;
use crate::standing::{Standing, standing_of};
use crate::starting::{new_adapters, new_drivers, new_ledger};
use crate::stopping::{end_all, stop_room};
use call_log::{Cause, Entry, Handler, Log};
use nd_base::{AdapterNo, BindingNo, Breach, CtxNo, OutOfMemory};
use owner_machine::{Binding, Context, Next};
use owner_rules::{Group, Ledger};
use std::alloc::Global;
use std::marker::Model;

/// Why the book does not take an entry.
#[derive(Clone, Copy)]
pub enum Refusal {
    /// It breaks the rule of this number.
    Broken(Breach),
    /// Memory is wanted for it.
    OutOfMemory,
}

/// A state of the owner machine, which the entries of a log move.
#[derive(Drop)]
pub struct Book {
    pub(crate) ledger: Ledger,
    pub(crate) alloc: Global,
}

impl Model for Book {
    ghost use Rattle.owner_machine.specs.State.{Owner};

    ghost Value = { Owner };

    ghost use Rattle.owner_rules.specs.State.{owner_of};

    ghost view = { λ b. owner_of b.ledger };
}

impl Book {
    /// So many adapters, and a driver for each of these numbers, which is its adapter's.
    pub fn new(alloc: Global, adapters: u8, drivers: &[AdapterNo]) -> Result<Book, OutOfMemory>
        ensures { IfOk result (λ book. book ≡ start adapters drivers.now) }
    {
        let adapters = new_adapters(alloc, adapters)?;
        match new_drivers(alloc, drivers) {
            Ok(drivers) => Ok(Book {
                ledger: new_ledger(alloc, adapters, drivers),
                alloc,
            }),
            Err(_) => Err(OutOfMemory),
        }
    }

    /// The miniport has these handlers of NDIS 5.1, or has not: NdisMRegisterMiniport.
    pub fn handlers(&mut self, cancelsend: bool, pnpevent: bool)
        ensures { self.new ≡ with_handlers cancelsend pnpevent self.old }
    {
        self.ledger.cancelsend = cancelsend;
        self.ledger.pnpevent = pnpevent;
    }

    /// Takes a leave that breaks a rule of another subject: it ends nothing, and nothing must stand
    /// behind it.
    pub fn say_nothing(&mut self)
        ensures { self.new ≡ said_nothing self.old }
    {
        self.ledger.next = Next::Free;
    }

    /// Takes an entry, unless it breaks a rule.
    #[tactic(auto, using(crate::proofs::Admits::case_of))]
    pub fn admit(&mut self, e: &Entry) -> Result<(), Refusal>
        ensures { Admits self.old e.now result self.new }
    {
        if let Some(rule) = self.ledger.rule_against(e) {
            return Err(Refusal::Broken(Breach(rule)));
        }
        match take(&mut self.ledger, self.alloc, e) {
            Ok(()) => Ok(()),
            Err(_) => Err(Refusal::OutOfMemory),
        }
    }

    /// How many adapters there are.
    pub fn adapters(&self) -> usize
        ensures { result ≡ length self.now.adapters }
    {
        self.ledger.adapters.len()
    }

    /// Whether an adapter is there, and not Stopped.
    pub fn stands(&self, a: AdapterNo) -> bool
        ensures { result ≡ stands self.now a.0 }
    {
        self.ledger.stands(a.0)
    }

    /// What a context runs and calls.
    pub fn context(&self, x: CtxNo) -> Option<Context>
        ensures { result ≡ slice_get self.now.contexts x.0 }
    {
        self.ledger.contexts.get(usize::from(x.0)).copied()
    }

    /// Whether a handler may be open beside those that are; and, of MiniportHalt and MiniportShutdown,
    /// whether the adapter may end.
    pub fn may_be_open(&self, a: AdapterNo, h: Handler) -> bool
        ensures { result ≡ (in_brackets self.now a.0 h && implies (is_halt h) (may_halt self.now a.0)) }
    {
        self.ledger.may_be_open(a.0, h)
    }

    /// Whether no MiniportHandleInterrupt of an adapter is open.
    pub fn no_dpc_is_open(&self, a: AdapterNo) -> bool
        ensures { result ≡ none_runs self.now is_dpc a.0 }
    {
        self.ledger.none_runs(Group::Dpc, a.0)
    }

    /// How many packets, loans and requests of an adapter are outstanding.
    pub fn outstanding(&self, a: AdapterNo) -> u64
        ensures { result ≡ outstanding self.now a.0 }
    {
        self.ledger.outstanding(a.0)
    }

    /// How an adapter stands.
    pub fn standing(&self, a: AdapterNo) -> Standing
        requires { a.0 < length self.now.adapters }
        ensures { IsStanding self.now a.0 result }
    {
        standing_of(&self.ledger, a.0)
    }

    /// The packet filter of a driver that is bound.
    pub fn filter(&self, b: BindingNo) -> Option<u32>
        ensures { result ≡ told_of_bound (λ d. d.filter) (slice_get self.now.drivers b.0) }
    {
        match self.ledger.drivers.get(b.0 as usize) {
            Some(driver) if matches!(driver.binding, Binding::Bound) => Some(driver.filter),
            _ => None,
        }
    }

    /// The multicast list of a driver that is bound.
    pub fn list(&self, b: BindingNo) -> Option<&[u8]>
        ensures { option_copied result ≡ told_of_bound (λ d. d.list) (slice_get self.now.drivers b.0) }
    {
        match self.ledger.drivers.get(b.0 as usize) {
            Some(driver) if matches!(driver.binding, Binding::Bound) => {
                Some(driver.list.as_slice())
            }
            _ => None,
        }
    }

    /// The first cancel id that waits for an adapter's MiniportCancelSendPackets.
    pub fn next_cancel(&self, a: AdapterNo) -> Option<u32>
        ensures { result ≡ first_cancel self.now a.0 }
    {
        match self.ledger.adapters.get(a.0 as usize) {
            Some(row) => row.cancels.first(),
            None => None,
        }
    }

    /// The first event that waits for an adapter's MiniportPnPEventNotify: its number and its bytes.
    pub fn next_event(&self, a: AdapterNo) -> Option<(u32, &[u8])>
        ensures { option_map (λ e. (e.0, e.1.now)) result ≡ first_event self.now a.0 }
    {
        let row = self.ledger.adapters.get(a.0 as usize)?;
        let event = row.events.first()?;
        Some((event.number, event.bytes.as_slice()))
    }

    /// How many entries it takes to stop every adapter that is not Stopped.
    pub fn stop_room(&self) -> u64
        ensures value { result ≡ stop_room self.now }
        ensures fits { result < 2 ^ 60 }
    {
        stop_room(&self.ledger)
    }

    /// Makes room in a log for the stops of all adapters, and for one more packet, loan and request.
    pub fn reserve_stop(&self, log: &mut Log) -> Result<(), OutOfMemory>
        ensures entries { log.new.entries ≡ log.old.entries }
        ensures ok { OnOk result (log.new.spare ≡ max log.old.spare (stop_room self.now + 3)) }
        ensures room { OnOk result ((a : ℕ) → stands self.now a ≡ true → outstanding self.now a < log.new.spare) }
        ensures err { OnErr result (log.new.spare ≡ log.old.spare) }
    {
        log.reserve(self.stop_room() + 3)
    }

    /// Stops an adapter: writes the stop and its tail out of the log's spare, and takes no memory.
    pub fn stop(&mut self, a: AdapterNo, cause: Cause, log: &mut Log)
        requires stands { stands self.old a.0 ≡ true }
        requires rule { HasRule cause }
        requires spare { outstanding self.old a.0 < log.old.spare }
        ensures stops { Stops self.old a cause log.old.entries log.new.entries self.new }
        ensures spare { log.new.spare + 1 + outstanding self.old a.0 ≡ log.old.spare }
    {
        stop(&mut self.ledger, a);
        log.append(Entry::Stop { adapter: a, cause });
        end_all(&mut self.ledger, self.alloc, a, log);
    }
}
