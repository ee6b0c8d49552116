//! What may become of loans.
//!
//! (DDK: NdisMIndicateReceivePacket, NdisReturnPackets, MiniportReturnPacket.)

ghost use Rattle.std.specs.Prelude.{◌≡◌, ℕ, map, drop};
ghost use Rattle.std.specs.Str.{bytes_eq};
ghost use Rattle.owner_machine.specs.State.{at, numbers_from};
ghost use Rattle.owner_machine.specs.Loans.{may_indicate, wants, holds, may_go_home, marks, lent_place, is_named};
ghost use Rattle.owner_machine.specs.Machine.{has_room};
ghost use Rattle.owner_rules.specs.State.{owner_of};

use crate::context_rules::LOOKAHEAD_INDICATE;
use crate::filters::wants;
use crate::ledger::Ledger;
use crate::logic::unless;
use nd_base::BindingNo;
use owner_machine::{Driver, Loan, LoanPlace, Next};
use owner_rows::{has_holder, is_away, is_due, is_held_by};

/// NdisMIndicateReceivePacket's number among the imports.
const INDICATE_RECEIVE_PACKET: u8 = 41;

/// How many loans an adapter may have away.
const MOST_LOANS: u64 = 256;

/// A 257th loan.
const ROOM_RULE: u8 = 12;

/// Whether the holders are the drivers that want a frame, in rising order.
fn are_wanting(drivers: &[Driver], a: u8, bytes: &[u8], holders: &[BindingNo]) -> bool
    ensures { result ≡ bytes_eq (map (λ h. h.0) holders.now) (numbers_from 0 (wants a bytes.now) drivers.now) }
{
    let mut named = 0;
    for (b, driver) in drivers.iter().enumerate() {
        if wants(driver, a, bytes) {
            match holders.get(named) {
                Some(holder) if usize::from(holder.0) == b => named += 1,
                _ => return false,
            }
        }
    }
    named == holders.len()
}

/// Whether a driver is among the holders.
fn is_named(holders: &[BindingNo], b: u8) -> bool
    ensures { result ≡ is_named holders.now b }
{
    holders.iter().any(|holder| holder.0 == b)
}

/// Of each driver, whether it is a holder.
pub fn marks(holders: &[BindingNo]) -> [bool; 8]
    ensures { result ≡ marks holders.now }
{
    [
        is_named(holders, 0),
        is_named(holders, 1),
        is_named(holders, 2),
        is_named(holders, 3),
        is_named(holders, 4),
        is_named(holders, 5),
        is_named(holders, 6),
        is_named(holders, 7),
    ]
}

/// Whether a loan may go back, and so: due, or failed at a stop.
fn may_go_home(next: &Next, failed: bool, l: &Loan) -> bool
    ensures { result ≡ may_go_home next.now failed l.now }
{
    match next {
        Next::GoingHome { adapter } => !failed && (is_due(l.place) && l.adapter.0 == adapter.0),
        Next::Tail { adapter } => failed && (is_away(l.place) && l.adapter.0 == adapter.0),
        _ => false,
    }
}

impl Ledger {
    pub(crate) fn may_indicate(
        &self,
        a: u8,
        j: u64,
        bytes: &[u8],
        holders: &[BindingNo],
        copied: bool,
    ) -> bool
        ensures { result ≡ may_indicate (owner_of self.now) a j bytes.now holders.now copied }
    {
        let is_next = j == self.loans.len();
        let indicated = self.in_call(a, INDICATE_RECEIVE_PACKET);
        let looked = copied && self.in_call(a, LOOKAHEAD_INDICATE);
        let wanted = are_wanting(self.drivers.as_slice(), a, bytes, holders);
        is_next && ((indicated || looked) && wanted)
    }

    /// Where a loan is that goes out to these holders.
    pub fn lent_place(&self, a: u8, holders: &[BindingNo], copied: bool) -> LoanPlace
        ensures { result ≡ lent_place (owner_of self.now) a holders.now copied }
    {
        if copied {
            return LoanPlace::Home;
        }
        if has_holder(&marks(holders)) {
            return LoanPlace::Out;
        }
        if self.is_serialized(a) {
            LoanPlace::Home
        } else {
            LoanPlace::Due
        }
    }

    /// The rule against another loan that goes out.
    pub(crate) fn has_room(&self, a: u8, goes_out: bool) -> Option<u8>
        ensures { result ≡ has_room (owner_of self.now) a goes_out }
    {
        let few = self.loans.away(a) < MOST_LOANS;
        unless(!goes_out || few, ROOM_RULE)
    }

    pub(crate) fn is_held_by(&self, j: u64, b: u8) -> bool
        ensures { result ≡ at (holds b) self.now.loans j }
    {
        match self.loans.get(j) {
            Some(l) => is_held_by(l, b),
            None => false,
        }
    }

    pub(crate) fn may_go_home(&self, j: u64, failed: bool) -> bool
        ensures { result ≡ at (may_go_home self.now.next failed) self.now.loans j }
    {
        match self.loans.get(j) {
            Some(l) => may_go_home(&self.next, failed, l),
            None => false,
        }
    }
}
