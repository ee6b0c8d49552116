//! What may become of packets.
//!
//! (DDK: NdisSend, MiniportSend, MiniportSendPackets, NdisMSendComplete, NdisCancelSendPackets.)

ghost use Rattle.std.specs.Prelude.{◌≡◌};
ghost use Rattle.owner_machine.specs.State.{at};
ghost use Rattle.owner_machine.specs.Packets.{may_send, was_sent, may_tag, hands, may_hand, has_verdict, may_requeue, is_ending, is_completed, may_end, may_complete, may_be_late, packet_adapter, first_queued, at_miniport, is_refused, is_aborted};
ghost use Rattle.owner_rules.specs.State.{owner_of};

use crate::ledger::Ledger;
use crate::logic::is_number;
use crate::phase_rules::NO_ADAPTER;
use owner_machine::{Next, Packet};
use owner_rows::{WhichPackets, is_aborted, is_miniport, is_out, is_queue, is_refused};

/// NdisMSendComplete's number among the imports.
pub(crate) const SEND_COMPLETE: u8 = 39;

/// How many send slots a driver has.
const SEND_SLOTS: u64 = 256;

fn was_sent(next: &Next, k: u64) -> bool
    ensures { result ≡ was_sent next.now k }
{
    match next {
        Next::Sent { packet } => packet.0 == k,
        _ => false,
    }
}

fn hands(next: &Next, a: u8) -> bool
    ensures { result ≡ hands next.now a }
{
    match next {
        Next::Handing { adapter, left, .. } => adapter.0 == a && 0 < *left,
        _ => false,
    }
}

/// Whether a packet that was handed by the handler that left just now has its verdict.
pub fn has_verdict(next: &Next, k: u64, p: &Packet) -> bool
    ensures { result ≡ has_verdict next.now k p.now }
{
    match next {
        Next::Left {
            adapter,
            enter,
            from,
            ..
        } => p.adapter.0 == adapter.0 && (p.hand == *enter && *from <= k),
        _ => false,
    }
}

/// Whether something beside its miniport ends a packet.
pub fn is_ending(next: &Next, p: &Packet) -> bool
    ensures { result ≡ is_ending next.now p.now }
{
    match next {
        Next::Tail { adapter } => is_out(p.place) && p.adapter.0 == adapter.0,
        Next::Aborting { adapter } => is_miniport(p.place) && p.adapter.0 == adapter.0,
        Next::Cancelling { driver, id } => {
            is_queue(p.place) && (p.driver.0 == driver.0 && p.id == *id)
        }
        _ => false,
    }
}

impl Ledger {
    /// The adapter of a packet; 255 for none.
    pub fn packet_adapter(&self, k: u64) -> u8
        ensures { result ≡ packet_adapter (owner_of self.now) k }
    {
        match self.packets.get(k) {
            Some(p) => p.adapter.0,
            None => NO_ADAPTER,
        }
    }

    /// The least packet in an adapter's queue.
    pub fn first_queued(&self, a: u8) -> Option<u64>
        ensures { result ≡ first_queued (owner_of self.now) a }
    {
        self.packets.first(WhichPackets::QueuedOf(a))
    }

    pub(crate) fn may_send(&self, b: u8, k: u64, bytes: usize) -> bool
        ensures { result ≡ may_send (owner_of self.now) b k bytes }
    {
        let bound = self.is_bound(b);
        let is_next = k == self.packets.len();
        let has_slot = self.packets.slots(b) < SEND_SLOTS;
        bound && (is_next && (14 <= bytes && (bytes <= 1514 && has_slot)))
    }

    pub(crate) fn may_tag(&self, k: u64, id: u32) -> bool
        ensures { result ≡ may_tag (owner_of self.now) k id }
    {
        let sent = was_sent(&self.next, k);
        let is_there = k < self.packets.len();
        sent && (is_there && id != 0)
    }

    pub(crate) fn may_hand(&self, k: u64) -> bool
        ensures { result ≡ may_hand (owner_of self.now) k }
    {
        let a = self.packet_adapter(k);
        hands(&self.next, a) && is_number(self.first_queued(a), k)
    }

    fn has_verdict(&self, k: u64) -> bool
        ensures { result ≡ at (has_verdict self.now.next k) self.now.packets k }
    {
        match self.packets.get(k) {
            Some(p) => has_verdict(&self.next, k, p),
            None => false,
        }
    }

    fn is_at_miniport(&self, k: u64) -> bool
        ensures { result ≡ at_miniport (owner_of self.now) k }
    {
        match self.packets.get(k) {
            Some(p) => is_miniport(p.place),
            None => false,
        }
    }

    pub(crate) fn is_refused_packet(&self, k: u64) -> bool
        ensures { result ≡ at (λ p. is_refused p.place) self.now.packets k }
    {
        match self.packets.get(k) {
            Some(p) => is_refused(p.place),
            None => false,
        }
    }

    pub(crate) fn may_requeue(&self, k: u64) -> bool
        ensures { result ≡ may_requeue (owner_of self.now) k }
    {
        let judged = self.has_verdict(k);
        let held = self.is_at_miniport(k);
        let serialized = self.is_serialized(self.packet_adapter(k));
        judged && (held && serialized)
    }

    fn is_completed(&self, k: u64, p: &Packet) -> bool
        ensures { result ≡ is_completed (owner_of self.now) k p.now }
    {
        let judged = has_verdict(&self.next, k, p);
        let called = self.in_call(p.adapter.0, SEND_COMPLETE);
        is_miniport(p.place) && (judged || called)
    }

    fn may_end(&self, k: u64, p: &Packet) -> bool
        ensures { result ≡ may_end (owner_of self.now) k p.now }
    {
        let ending = is_ending(&self.next, p);
        let completed = self.is_completed(k, p);
        ending || (is_refused(p.place) || completed)
    }

    pub(crate) fn may_complete(&self, k: u64) -> bool
        ensures { result ≡ may_complete (owner_of self.now) k }
    {
        match self.packets.get(k) {
            Some(p) => self.may_end(k, p),
            None => false,
        }
    }

    fn is_aborted_packet(&self, k: u64) -> bool
        ensures { result ≡ at (λ p. is_aborted p.place) self.now.packets k }
    {
        match self.packets.get(k) {
            Some(p) => is_aborted(p.place),
            None => false,
        }
    }

    pub(crate) fn may_be_late(&self, k: u64) -> bool
        ensures { result ≡ may_be_late (owner_of self.now) k }
    {
        let called = self.in_call(self.packet_adapter(k), SEND_COMPLETE);
        self.is_aborted_packet(k) && called
    }
}
