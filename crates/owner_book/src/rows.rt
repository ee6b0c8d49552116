//! What the book tells of its rows: packets, loans, requests, drivers, open handlers.

ghost use Rattle.std.specs.Prelude.{◌≡◌, ◌==◌, not, count_by, length, option_copied, position, slice_get};
ghost use Rattle.std.specs.Option.{option_map};
ghost use Rattle.owner_machine.specs.Contexts.{none_runs};
ghost use Rattle.owner_machine.specs.Machine.{rule_against};
ghost use Rattle.owner_machine.specs.Must.{owner_must};
ghost use Rattle.owner_machine.specs.Packets.{slot_of};
ghost use Rattle.owner_rows.specs.Which.{which_loans, which_packets, which_requests};
ghost use Rattle.owner_rules.specs.Duties.{due_as};
ghost use Rattle.owner_rules.specs.Groups.{in_group};

use crate::book::Book;
use call_log::Entry;
use nd_base::{AdapterNo, BindingNo, Breach, LoanNo, PacketNo, RequestNo};
use owner_machine::{Driver, Loan, Packet, Request};
use owner_rows::{WhichLoans, WhichPackets, WhichRequests};
use owner_rules::{Duty, Group};

impl Book {
    /// The rule that an entry breaks, if it breaks one.
    pub fn rule_against(&self, e: &Entry) -> Option<Breach>
        ensures { option_map (λ b. b.0) result ≡ rule_against self.now e.now }
    {
        match self.ledger.rule_against(e) {
            Some(rule) => Some(Breach(rule)),
            None => None,
        }
    }

    /// What must stand directly next.
    pub fn must(&self) -> Option<Duty>
        ensures { option_map due_as result ≡ owner_must self.now }
    {
        self.ledger.owner_must()
    }

    /// How many drivers there are.
    pub fn drivers(&self) -> usize
        ensures { result ≡ length self.now.drivers }
    {
        self.ledger.drivers.len()
    }

    /// A driver.
    pub fn driver(&self, b: BindingNo) -> Option<&Driver>
        ensures { option_copied result ≡ slice_get self.now.drivers b.0 }
    {
        self.ledger.drivers.get(usize::from(b.0))
    }

    /// How many packets were sent.
    pub fn packets(&self) -> u64
        ensures { result ≡ length self.now.packets }
    {
        self.ledger.packets.len()
    }

    /// A packet.
    pub fn packet(&self, k: PacketNo) -> Option<&Packet>
        ensures { option_copied result ≡ slice_get self.now.packets k.0 }
    {
        self.ledger.packets.get(k.0)
    }

    /// The first of such packets.
    pub fn first_packet(&self, which: WhichPackets) -> Option<u64>
        ensures { result ≡ position (which_packets which) self.now.packets }
    {
        self.ledger.packets.first(which)
    }

    /// Whether there is such a packet.
    pub fn has_packet(&self, which: WhichPackets) -> bool
        ensures { result ≡ not (count_by (which_packets which) self.now.packets == 0) }
    {
        self.ledger.packets.any(which)
    }

    /// How many send slots of a driver are in use.
    pub fn slots(&self, b: BindingNo) -> u64
        ensures { result ≡ count_by (slot_of b.0) self.now.packets }
    {
        self.ledger.packets.slots(b.0)
    }

    /// How many loans were made.
    pub fn loans(&self) -> u64
        ensures { result ≡ length self.now.loans }
    {
        self.ledger.loans.len()
    }

    /// A loan.
    pub fn loan(&self, j: LoanNo) -> Option<&Loan>
        ensures { option_copied result ≡ slice_get self.now.loans j.0 }
    {
        self.ledger.loans.get(j.0)
    }

    /// The first of such loans.
    pub fn first_loan(&self, which: WhichLoans) -> Option<u64>
        ensures { result ≡ position (which_loans which) self.now.loans }
    {
        self.ledger.loans.first(which)
    }

    /// Whether there is such a loan.
    pub fn has_loan(&self, which: WhichLoans) -> bool
        ensures { result ≡ not (count_by (which_loans which) self.now.loans == 0) }
    {
        self.ledger.loans.any(which)
    }

    /// How many requests were asked.
    pub fn requests(&self) -> u64
        ensures { result ≡ length self.now.requests }
    {
        self.ledger.requests.len()
    }

    /// A request.
    pub fn request(&self, r: RequestNo) -> Option<&Request>
        ensures { option_copied result ≡ slice_get self.now.requests r.0 }
    {
        self.ledger.requests.get(r.0)
    }

    /// The first of such requests.
    pub fn first_request(&self, which: WhichRequests) -> Option<u64>
        ensures { result ≡ position (which_requests which) self.now.requests }
    {
        self.ledger.requests.first(which)
    }

    /// Whether there is such a request.
    pub fn has_request(&self, which: WhichRequests) -> bool
        ensures { result ≡ not (count_by (which_requests which) self.now.requests == 0) }
    {
        self.ledger.requests.any(which)
    }

    /// Whether no context runs such a handler of an adapter.
    pub fn none_runs(&self, group: Group, a: AdapterNo) -> bool
        ensures { result ≡ none_runs self.now (in_group group) a.0 }
    {
        self.ledger.none_runs(group, a.0)
    }
}
