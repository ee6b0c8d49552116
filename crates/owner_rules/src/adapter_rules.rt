//! Bindings, cancels, events and resets.
//!
//! (DDK: NdisOpenAdapter, NdisCloseAdapter, NdisCancelSendPackets, MiniportCancelSendPackets,
//! MiniportPnPEventNotify, MiniportCheckForHang, MiniportReset, NdisMResetComplete.)

ghost use Rattle.std.specs.Prelude.{◌≡◌, ◌==◌, ◌&&◌};
ghost use Rattle.owner_machine.specs.State.{at, is_running};
ghost use Rattle.owner_machine.specs.Adapters.{may_bind, waits_for, may_unbind, may_cancel, cancel_waits, may_signal, may_begin_reset, left_reset, may_end_reset};
ghost use Rattle.owner_rules.specs.State.{owner_of};

use crate::groups::{Group, is_reset};
use crate::ledger::Ledger;
use nd_base::Phase;
use owner_machine::{Binding, Next};
use owner_rows::{WhichLoans, WhichPackets, WhichRequests};

/// NdisMResetComplete's number among the imports.
const RESET_COMPLETE: u8 = 42;

/// The most bytes of an event.
const MOST_EVENT_BYTES: usize = 256;

fn left_reset(next: &Next, a: u8) -> bool
    ensures { result ≡ left_reset next.now a }
{
    match next {
        Next::Left {
            adapter,
            handler,
            ..
        } => adapter.0 == a && is_reset(*handler),
        _ => false,
    }
}

impl Ledger {
    pub(crate) fn may_bind(&self, b: u8, a: u8) -> bool
        ensures { result ≡ may_bind (owner_of self.now) b a }
    {
        match self.drivers.get(b as usize) {
            Some(driver) => matches!(driver.binding, Binding::Unbound) && driver.adapter.0 == a,
            None => false,
        }
    }

    /// Whether a driver waits for nothing, and holds nothing.
    #[tactic(auto, using(crate::proofs::Sums::none_of_three))]
    fn waits_for_nothing(&self, b: u8) -> bool
        ensures { result ≡ (waits_for (owner_of self.now) b == 0) }
    {
        let sent = self.packets.any(WhichPackets::SentBy(b));
        let held = self.loans.any(WhichLoans::HeldBy(b));
        let asked = self.requests.any(WhichRequests::AskedBy(b));
        !sent && (!held && !asked)
    }

    pub(crate) fn may_unbind(&self, b: u8) -> bool
        ensures { result ≡ may_unbind (owner_of self.now) b }
    {
        let idle = self.waits_for_nothing(b);
        self.is_bound(b) && idle
    }

    pub(crate) fn may_cancel(&self, b: u8, id: u32) -> bool
        ensures { result ≡ may_cancel (owner_of self.now) b id }
    {
        self.is_bound(b) && id != 0
    }

    /// Whether the miniport is to hear of a cancel.
    pub fn cancel_waits(&self, b: u8, id: u32) -> bool
        ensures { result ≡ cancel_waits (owner_of self.now) b id }
    {
        let lives = self.lives(self.adapter_of(b));
        let held = self.packets.any(WhichPackets::HeldWith(b, id));
        lives && (self.cancelsend && held)
    }

    pub(crate) fn may_signal(&self, b: u8, bytes: usize, taken: bool) -> bool
        ensures { result ≡ may_signal (owner_of self.now) b bytes taken }
    {
        let bound = self.is_bound(b);
        let lives = self.lives(self.adapter_of(b));
        let heard = lives && self.pnpevent;
        bound && (bytes <= MOST_EVENT_BYTES && taken == heard)
    }

    /// Whether an adapter is Running and owes a reset.
    fn owes_reset(&self, a: u8) -> bool
        ensures { result ≡ at (λ row. is_running row.phase && row.owes_reset) self.now.adapters.items a }
    {
        match self.adapters.get(a as usize) {
            Some(row) => matches!(row.phase, Phase::Running) && row.owes_reset,
            None => false,
        }
    }

    pub(crate) fn may_begin_reset(&self, a: u8) -> bool
        ensures { result ≡ may_begin_reset (owner_of self.now) a }
    {
        let owed = self.owes_reset(a);
        let idle = self.none_runs(Group::Serial, a);
        let free = self.has_free_context();
        owed && (idle && free)
    }

    pub(crate) fn may_end_reset(&self, a: u8) -> bool
        ensures { result ≡ may_end_reset (owner_of self.now) a }
    {
        let called = self.in_call(a, RESET_COMPLETE);
        let left = left_reset(&self.next, a);
        self.is_resetting(a) && (called || left)
    }
}
