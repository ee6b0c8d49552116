//! Which handlers may be entered.
//!
//! (DDK: MiniportHalt, MiniportShutdown.)

ghost use Rattle.std.specs.Prelude.{◌≡◌, ◌≤◌, ◌*◌, ◌==◌, ◌&&◌, count_by, Some};
ghost use Rattle.owner_machine.specs.State.{at, implies};
ghost use Rattle.owner_machine.specs.Contexts.{in_brackets, is_halt};
ghost use Rattle.owner_machine.specs.Handlers.{outstanding, stays_bound, nothing_waits, may_halt, may_enter};
ghost use Rattle.owner_rows.specs.Kept.{most_rows};
ghost use Rattle.owner_rules.specs.State.{owner_of};

use crate::groups::{Group, is_entry, is_halt};
use crate::ledger::Ledger;
use crate::logic::implies;
use call_log::Handler;
use nd_base::AdapterNo;
use owner_machine::{Binding, Driver};

/// Whether a driver of the adapter has not unbound.
fn stays_bound(driver: &Driver, a: u8) -> bool
    ensures { result ≡ stays_bound a driver.now }
{
    driver.adapter.0 == a && !matches!(driver.binding, Binding::HasBeen)
}

impl Ledger {
    /// How many packets, loans and requests of an adapter are outstanding.
    pub fn outstanding(&self, a: u8) -> u64
        ensures value { result ≡ outstanding (owner_of self.now) a }
        ensures few { result ≤ 3 * most_rows }
    {
        self.packets.out(a) + self.loans.away(a) + self.requests.unanswered(a)
    }

    /// Whether every driver of an adapter has unbound.
    pub fn none_stays_bound(&self, a: u8) -> bool
        ensures { result ≡ (count_by (stays_bound a) self.now.drivers.items == 0) }
    {
        self.drivers
            .iter()
            .filter(|driver| stays_bound(driver, a))
            .count()
            == 0
    }

    fn nothing_waits(&self, a: u8) -> bool
        ensures { result ≡ at nothing_waits self.now.adapters.items a }
    {
        match self.adapters.get(a as usize) {
            Some(row) => row.cancels.is_empty() && row.events.is_empty(),
            None => false,
        }
    }

    fn may_halt(&self, a: u8) -> bool
        ensures { result ≡ may_halt (owner_of self.now) a }
    {
        let running = self.is_running(a);
        let unbound = self.none_stays_bound(a);
        let ended = self.outstanding(a) == 0;
        let heard = self.nothing_waits(a);
        let idle = self.none_runs(Group::Any, a);
        running && (unbound && (ended && (heard && idle)))
    }

    /// Whether a handler may be open beside those that are; and, of MiniportHalt and MiniportShutdown,
    /// whether the adapter may end.
    pub fn may_be_open(&self, a: u8, h: Handler) -> bool
        ensures { result ≡ (in_brackets (owner_of self.now) a h && implies (is_halt h) (may_halt (owner_of self.now) a)) }
    {
        let fits = self.in_brackets(a, h);
        let ends = implies(is_halt(h), self.may_halt(a));
        fits && ends
    }

    fn may_enter_adapter(&self, a: u8, c: u8, h: Handler) -> bool
        ensures { result ≡ may_enter (owner_of self.now) (Some (record { 0 = a })) c h }
    {
        let free = self.is_context_free(c);
        let stands = self.stands(a);
        let fits = self.may_be_open(a, h);
        free && (!is_entry(h) && (stands && fits))
    }

    pub(crate) fn may_enter(&self, adapter: Option<AdapterNo>, c: u8, h: Handler) -> bool
        ensures { result ≡ may_enter (owner_of self.now) adapter c h }
    {
        match adapter {
            None => self.is_context_free(c) && is_entry(h),
            Some(a) => self.may_enter_adapter(a.0, c, h),
        }
    }
}
