//! The loans of a run.

ghost use Rattle.std.specs.Prelude.{◌≡◌, ◌≤◌, ℕ, List, [], ◌∷◌, ◌++◌, length, position, count_by, slice_get, option_copied, OnOk, OnErr, true, Some, not, ◌==◌, ◌&&◌};
ghost use Rattle.std.specs.List.{list_any};
ghost use Rattle.owner_machine.specs.State.{at, change, implies};
ghost use Rattle.owner_machine.specs.Loans.{is_away, is_lent, away_of, holds, has_holder, gone_home, returned};
ghost use Rattle.owner_rows.specs.Which.{which_loans};
ghost use Rattle.owner_rows.specs.Kept.{loan_away, most_rows};

use crate::MOST_ROWS;
use crate::numbers::Numbers;
use crate::places::{is_away, is_due, is_lent};
use crate::tally::recount;
use nd_base::OutOfMemory;
use owner_machine::{Loan, LoanPlace};
use std::alloc::Global;
use std::marker::Model;

/// Some loans that are not back.
#[derive(Clone, Copy)]
pub enum WhichLoans {
    /// An adapter's.
    AwayOf(u8),
    /// An adapter's that wait for their miniport.
    DueOf(u8),
    /// Those that a driver holds.
    HeldBy(u8),
}

/// Whether a driver holds a loan still.
pub fn is_held_by(l: &Loan, b: u8) -> bool
    ensures { result ≡ holds b l.now }
{
    is_lent(l.place) && l.holders.get(b as usize).copied().unwrap_or(false)
}

impl WhichLoans {
    fn has(self, l: &Loan) -> bool
        ensures { result ≡ which_loans self l.now }
    {
        match self {
            WhichLoans::AwayOf(a) => is_away(l.place) && l.adapter.0 == a,
            WhichLoans::DueOf(a) => is_due(l.place) && l.adapter.0 == a,
            WhichLoans::HeldBy(b) => is_held_by(l, b),
        }
    }
}

/// Whether any driver is marked.
pub fn has_holder(holders: &[bool]) -> bool
    ensures { result ≡ has_holder holders.now }
{
    holders.iter().any(|holder| *holder)
}

/// The loan where a driver has returned its part: the last one's makes it due.
fn after_return(l: Loan, b: u8) -> Loan
    ensures { result ≡ returned b l }
{
    let mut holders = l.holders;
    if (b as usize) < holders.len() {
        holders[b as usize] = false;
    }
    let place = if has_holder(&holders) {
        LoanPlace::Out
    } else {
        LoanPlace::Due
    };
    Loan {
        holders,
        place,
        ..l
    }
}

/// The loan back at its miniport.
fn after_back(l: Loan) -> Loan
    ensures { result ≡ gone_home l }
{
    Loan {
        holders: [false; 8],
        place: LoanPlace::Home,
        ..l
    }
}

/// The loans by number, seen as the list of them.
#[derive(Drop)]
pub struct Loans {
    rows: Vec<Loan>,
    /// The numbers of those that are not back.
    live: Numbers,
    /// How many of each adapter are not back.
    away: [u64; 256],
}

impl Model for Loans {
    ghost use Rattle.std.specs.Prelude.{List};
    ghost use Rattle.owner_machine.specs.declared.rows.Loan.{Loan};
    ghost use Rattle.owner_rows.specs.Kept.{KeepsLoans};

    ghost Value = { List Loan };

    ghost view = { λ l. l.rows.items };

    ghost invariant = { λ l. KeepsLoans l.rows.items l.live l.away };
}

impl Loans {
    /// No loans.
    pub fn new(alloc: Global) -> Loans
        ensures { result ≡ [] }
    {
        Loans {
            rows: Vec::new(alloc),
            live: Numbers::new(alloc),
            away: [0; 256],
        }
    }

    /// How many loans there are.
    pub fn len(&self) -> u64
        ensures { result ≡ length self.now }
    {
        self.rows.len() as u64
    }

    /// The loan of a number.
    pub fn get(&self, j: u64) -> Option<&Loan>
        ensures { option_copied result ≡ slice_get self.now j }
    {
        self.rows.as_slice().get(j as usize)
    }

    /// A copy of the loan of a number.
    fn row(&self, j: u64) -> Option<Loan>
        ensures { result ≡ slice_get self.now j }
    {
        self.get(j).copied()
    }

    /// How many loans of an adapter are not back.
    pub fn away(&self, a: u8) -> u64
        ensures value { result ≡ count_by (away_of a) self.now }
        ensures few { result ≤ most_rows }
    {
        self.away[a as usize]
    }

    /// The least of some loans.
    pub fn first(&self, which: WhichLoans) -> Option<u64>
        ensures { result ≡ position (which_loans which) self.now }
    {
        for i in 0..self.live.len() {
            let j = self.live.at(i);
            if let Some(l) = self.get(j) {
                if which.has(l) {
                    return Some(j);
                }
            }
        }
        None
    }

    /// Whether there are any of some loans.
    #[tactic(auto, using(crate::proofs::Rows::any_is))]
    pub fn any(&self, which: WhichLoans) -> bool
        ensures { result ≡ not (count_by (which_loans which) self.now == 0) }
    {
        self.first(which).is_some()
    }

    /// Puts a loan behind the last one.
    pub fn push(&mut self, l: Loan) -> Result<(), OutOfMemory>
        ensures ok { OnOk result (self.new ≡ self.old ++ l ∷ []) }
        ensures err { OnErr result (self.new ≡ self.old) }
    {
        let j = self.rows.len() as u64;
        if j >= MOST_ROWS {
            return Err(OutOfMemory);
        }
        self.rows.reserve(1)?;
        let away = is_away(l.place);
        self.live.push_if(j, away)?;
        self.rows.push_reserved(l);
        recount(&mut self.away, l.adapter.0, false, away);
        Ok(())
    }

    /// Changes a loan, which stays its adapter's, and does not go out anew.
    fn put(&mut self, j: u64, was: Loan, l: Loan)
        requires row { slice_get self.old j ≡ Some was }
        requires adapter { l.adapter ≡ was.adapter }
        requires away { implies (is_away l.place) (is_away was.place) ≡ true }
        ensures { self.new ≡ change (λ _. l) self.old j }
    {
        set_row(&mut self.rows, j, was, l);
        let (away, is_away) = (is_away(was.place), is_away(l.place));
        self.live.keep(j, away, is_away);
        recount(&mut self.away, was.adapter.0, away, is_away);
    }

    /// A driver returns its part of a loan that is not back.
    pub fn give_back(&mut self, j: u64, b: u8)
        requires { at loan_away self.old j ≡ true }
        ensures { self.new ≡ change (returned b) self.old j }
    {
        if let Some(was) = self.row(j) {
            self.put(j, was, after_return(was, b));
        }
    }

    /// A loan goes back to its miniport.
    pub fn send_home(&mut self, j: u64)
        ensures { self.new ≡ change gone_home self.old j }
    {
        if let Some(was) = self.row(j) {
            self.put(j, was, after_back(was));
        }
    }
}

/// Writes a row.
#[tactic(auto, using(crate::specs::Changes::written))]
fn set_row(rows: &mut Vec<Loan>, j: u64, was: Loan, l: Loan)
    requires { slice_get rows.old.items j ≡ Some was }
    ensures { rows.new.items ≡ change (λ _. l) rows.old.items j }
{
    rows[j as usize] = l;
}
