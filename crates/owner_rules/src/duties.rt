//! What must stand directly next.

ghost use Rattle.std.specs.Prelude.{◌≡◌, ◌==◌, true, false, cond, Some, None, position, count_by, nat_lt};
ghost use Rattle.std.specs.Option.{option_map};
ghost use Rattle.owner_machine.specs.declared.rows.Next.TheVariants.{Free};
ghost use Rattle.owner_machine.specs.State.{at};
ghost use Rattle.owner_machine.specs.Packets.{first_queued};
ghost use Rattle.owner_machine.specs.Loans.{due_of};
ghost use Rattle.owner_machine.specs.Requests.{first_asked};
ghost use Rattle.owner_rows.specs.Which.{which_packets};
ghost use Rattle.owner_machine.specs.Must.{send_refusal, refused_packet, refused_ask, tail, owner_must, serves, may_break_in, is_served};
ghost use Rattle.owner_machine.specs.Must as due;
ghost use Rattle.owner_rules.specs.Duties.{due_as};
ghost use Rattle.owner_rules.specs.State.{owner_of};

use crate::groups::is_reset;
use crate::ledger::Ledger;
use crate::question_rules::{CLOSING, RESET_IN_PROGRESS};
use call_log::{Cause, Entry};
use owner_machine::Next;
use owner_rows::{WhichLoans, WhichPackets, WhichRequests, is_due, is_turned_away};

/// NDIS_STATUS_FAILURE.
const FAILURE: u32 = 0xC000_0001;

/// NDIS_STATUS_REQUEST_ABORTED.
const REQUEST_ABORTED: u32 = 0xC001_000C;

/// What must stand directly next.
#[derive(Clone, Copy)]
pub enum Duty {
    /// The packet's completion with that status; where it was sent just now, its tag may come first.
    Completes {
        fresh: bool,
        packet: u64,
        status: u32,
    },
    /// The loan goes back as failed.
    BacksFailed {
        loan: u64,
    },
    /// The request's answer with that status, and no bytes.
    Answers {
        request: u64,
        status: u32,
    },
    /// The packet is handed.
    Hands {
        packet: u64,
    },
    /// A loan of the adapter that is due goes home.
    BacksDue {
        adapter: u8,
    },
    /// The request is handed.
    HandsAsk {
        request: u64,
    },
    /// The adapter's reset handler is entered.
    EntersReset {
        adapter: u8,
    },
}

impl Ledger {
    /// The status that refuses a send to an adapter.
    fn send_refusal(&self, a: u8) -> u32
        ensures { result ≡ send_refusal (owner_of self.now) a }
    {
        if self.is_resetting(a) {
            RESET_IN_PROGRESS
        } else {
            CLOSING
        }
    }

    fn refused_packet(&self, fresh: bool, k: u64) -> Option<Duty>
        ensures { option_map due_as result ≡ refused_packet (owner_of self.now) fresh k }
    {
        if !self.is_refused_packet(k) {
            return None;
        }
        Some(Duty::Completes {
            fresh,
            packet: k,
            status: self.send_refusal(self.packet_adapter(k)),
        })
    }

    fn refused_ask(&self, r: u64) -> Option<Duty>
        ensures { option_map due_as result ≡ refused_ask (owner_of self.now) r }
    {
        let Some(request) = self.requests.get(r) else {
            return None;
        };
        if !is_turned_away(request.place) {
            return None;
        }
        match self.refused_with(request.adapter.0, &request.question) {
            Some(status) => Some(Duty::Answers { request: r, status }),
            None => None,
        }
    }

    fn completion(&self, which: WhichPackets, status: u32) -> Option<Duty>
        ensures { option_map due_as result ≡ option_map (λ k. due.Completes false k status) (position (which_packets which) self.now.packets) }
    {
        match self.packets.first(which) {
            Some(packet) => Some(Duty::Completes {
                fresh: false,
                packet,
                status,
            }),
            None => None,
        }
    }

    /// The tail of a stop: the adapter's packets, then its loans, then its requests, each the least
    /// first.
    pub fn tail(&self, a: u8) -> Option<Duty>
        ensures { option_map due_as result ≡ tail (owner_of self.now) a }
    {
        if let Some(duty) = self.completion(WhichPackets::OutOf(a), FAILURE) {
            return Some(duty);
        }
        if let Some(loan) = self.loans.first(WhichLoans::AwayOf(a)) {
            return Some(Duty::BacksFailed { loan });
        }
        match self.requests.first(WhichRequests::OpenOf(a)) {
            Some(request) => Some(Duty::Answers {
                request,
                status: FAILURE,
            }),
            None => None,
        }
    }

    fn next_handed(&self, a: u8, left: u32) -> Option<Duty>
        ensures { option_map due_as result ≡ cond (nat_lt 0 left) (option_map (λ k. due.Hands k) (first_queued (owner_of self.now) a)) None }
    {
        if left == 0 {
            return None;
        }
        match self.first_queued(a) {
            Some(packet) => Some(Duty::Hands { packet }),
            None => None,
        }
    }

    fn next_home(&self, a: u8) -> Option<Duty>
        ensures { option_map due_as result ≡ cond (count_by (due_of a) self.now.loans == 0) None (Some (due.BacksDue a)) }
    {
        if self.loans.any(WhichLoans::DueOf(a)) {
            Some(Duty::BacksDue { adapter: a })
        } else {
            None
        }
    }

    fn next_asked(&self, a: u8) -> Option<Duty>
        ensures { option_map due_as result ≡ option_map (λ r. due.HandsAsk r) (first_asked (owner_of self.now) a) }
    {
        match self.first_asked(a) {
            Some(request) => Some(Duty::HandsAsk { request }),
            None => None,
        }
    }

    /// What must stand directly next.
    pub fn owner_must(&self) -> Option<Duty>
        ensures { option_map due_as result ≡ owner_must (owner_of self.now) }
    {
        match self.next {
            Next::Sent { packet } => self.refused_packet(true, packet.0),
            Next::Tagged { packet } => self.refused_packet(false, packet.0),
            Next::Asked { request } => self.refused_ask(request.0),
            Next::Tail { adapter } => self.tail(adapter.0),
            Next::Aborting { adapter } => {
                self.completion(WhichPackets::HeldOf(adapter.0), REQUEST_ABORTED)
            }
            Next::Cancelling { driver, id } => {
                self.completion(WhichPackets::QueuedWith(driver.0, id), REQUEST_ABORTED)
            }
            Next::Handing { adapter, left, .. } => self.next_handed(adapter.0, left),
            Next::GoingHome { adapter } => self.next_home(adapter.0),
            Next::HandingAsk { adapter, .. } => self.next_asked(adapter.0),
            Next::Resetting { adapter } => Some(Duty::EntersReset { adapter: adapter.0 }),
            _ => None,
        }
    }

    fn is_due_loan(&self, a: u8, j: u64) -> bool
        ensures { result ≡ at (due_of a) self.now.loans j }
    {
        match self.loans.get(j) {
            Some(l) => is_due(l.place) && l.adapter.0 == a,
            None => false,
        }
    }

    /// Whether the entry is what is due.
    fn serves(&self, duty: Duty, e: &Entry) -> bool
        ensures { result ≡ serves (owner_of self.now) (due_as duty) e.now }
    {
        match duty {
            Duty::Completes {
                fresh,
                packet,
                status,
            } => self.serves_completion(fresh, packet, status, e),
            Duty::BacksFailed { loan } => self.serves_failed(loan, e),
            Duty::Answers { request, status } => self.serves_answer(request, status, e),
            Duty::Hands { packet } => self.serves_hand(packet, e),
            Duty::BacksDue { adapter } => self.serves_home(adapter, e),
            Duty::HandsAsk { request } => self.serves_hand_ask(request, e),
            Duty::EntersReset { adapter } => self.serves_reset(adapter, e),
        }
    }

    fn serves_completion(&self, fresh: bool, k: u64, status: u32, e: &Entry) -> bool
        ensures { result ≡ serves (owner_of self.now) (due.Completes fresh k status) e.now }
    {
        match e {
            Entry::Complete {
                packet,
                status: other,
            } => packet.0 == k && other.0 == status,
            Entry::Tag { packet, .. } => fresh && packet.0 == k,
            _ => false,
        }
    }

    fn serves_failed(&self, j: u64, e: &Entry) -> bool
        ensures { result ≡ serves (owner_of self.now) (due.BacksFailed j) e.now }
    {
        match e {
            Entry::Back { loan, failed } => *failed && loan.0 == j,
            _ => false,
        }
    }

    fn serves_answer(&self, r: u64, status: u32, e: &Entry) -> bool
        ensures { result ≡ serves (owner_of self.now) (due.Answers r status) e.now }
    {
        match e {
            Entry::Answer {
                request,
                status: other,
                bytes,
            } => request.0 == r && (other.0 == status && bytes.is_empty()),
            _ => false,
        }
    }

    fn serves_hand(&self, k: u64, e: &Entry) -> bool
        ensures { result ≡ serves (owner_of self.now) (due.Hands k) e.now }
    {
        match e {
            Entry::Hand { packet } => packet.0 == k,
            _ => false,
        }
    }

    fn serves_home(&self, a: u8, e: &Entry) -> bool
        ensures { result ≡ serves (owner_of self.now) (due.BacksDue a) e.now }
    {
        match e {
            Entry::Back { loan, failed } => !*failed && self.is_due_loan(a, loan.0),
            _ => false,
        }
    }

    fn serves_hand_ask(&self, r: u64, e: &Entry) -> bool
        ensures { result ≡ serves (owner_of self.now) (due.HandsAsk r) e.now }
    {
        match e {
            Entry::HandAsk { request } => request.0 == r,
            _ => false,
        }
    }

    fn serves_reset(&self, a: u8, e: &Entry) -> bool
        ensures { result ≡ serves (owner_of self.now) (due.EntersReset a) e.now }
    {
        match e {
            Entry::Enter {
                adapter: Some(adapter),
                handler,
                ..
            } => adapter.0 == a && is_reset(*handler),
            _ => false,
        }
    }

    /// Whether nothing must stand, or the entry is that.
    pub(crate) fn is_served(&self, e: &Entry) -> bool
        ensures { result ≡ is_served (owner_of self.now) e.now }
    {
        match self.owner_must() {
            Some(duty) => self.serves(duty, e) || may_break_in(&self.next, e),
            None => true,
        }
    }
}

/// Whether an entry is a stop for want of memory.
fn is_memory_stop(e: &Entry) -> bool
    ensures { result ≡ may_break_in Free e.now }
{
    match e {
        Entry::Stop {
            cause: Cause::Memory,
            ..
        } => true,
        _ => false,
    }
}

/// Whether an entry may stand in place of what must.
fn may_break_in(next: &Next, e: &Entry) -> bool
    ensures { result ≡ may_break_in next.now e.now }
{
    match next {
        Next::Sent { .. } | Next::Tagged { .. } | Next::Asked { .. } | Next::Tail { .. } => false,
        _ => is_memory_stop(e),
    }
}
