//! The requests of a run.

ghost use Rattle.std.specs.Prelude.{◌≡◌, ◌≤◌, ℕ, List, [], ◌∷◌, ◌++◌, length, position, count_by, slice_get, option_copied, OnOk, OnErr, true, Some, not, ◌==◌};
ghost use Rattle.owner_machine.specs.State.{at, change};
ghost use Rattle.owner_machine.specs.Requests.{is_open, open_of, handed_ask, answered};
ghost use Rattle.owner_rows.specs.Which.{which_requests};
ghost use Rattle.owner_rows.specs.Kept.{request_open, most_rows};

use crate::MOST_ROWS;
use crate::numbers::Numbers;
use crate::places::{is_asked, is_handed, is_open};
use crate::tally::recount;
use nd_base::OutOfMemory;
use owner_machine::{Request, RequestPlace};
use std::alloc::Global;
use std::marker::Model;

/// Some requests that are not answered.
#[derive(Clone, Copy)]
pub enum WhichRequests {
    /// An adapter's.
    OpenOf(u8),
    /// An adapter's that wait to be handed.
    AskedOf(u8),
    /// An adapter's that its miniport has.
    HandedOf(u8),
    /// A driver's.
    AskedBy(u8),
}

impl WhichRequests {
    fn has(self, r: &Request) -> bool
        ensures { result ≡ which_requests self r.now }
    {
        match self {
            WhichRequests::OpenOf(a) => is_open(r.place) && r.adapter.0 == a,
            WhichRequests::AskedOf(a) => is_asked(r.place) && r.adapter.0 == a,
            WhichRequests::HandedOf(a) => is_handed(r.place) && r.adapter.0 == a,
            WhichRequests::AskedBy(b) => is_open(r.place) && r.driver.0 == b,
        }
    }
}

/// The requests by number, seen as the list of them.
#[derive(Drop)]
pub struct Requests {
    rows: Vec<Request>,
    /// The numbers of those that are not answered.
    live: Numbers,
    /// How many of each adapter are not answered.
    unanswered: [u64; 256],
}

impl Model for Requests {
    ghost use Rattle.std.specs.Prelude.{List};
    ghost use Rattle.owner_machine.specs.declared.rows.Request.{Request};
    ghost use Rattle.owner_rows.specs.Kept.{KeepsRequests};

    ghost Value = { List Request };

    ghost view = { λ r. r.rows.items };

    ghost invariant = { λ r. KeepsRequests r.rows.items r.live r.unanswered };
}

impl Requests {
    /// No requests.
    pub fn new(alloc: Global) -> Requests
        ensures { result ≡ [] }
    {
        Requests {
            rows: Vec::new(alloc),
            live: Numbers::new(alloc),
            unanswered: [0; 256],
        }
    }

    /// How many requests there are.
    pub fn len(&self) -> u64
        ensures { result ≡ length self.now }
    {
        self.rows.len() as u64
    }

    /// The request of a number.
    pub fn get(&self, r: u64) -> Option<&Request>
        ensures { option_copied result ≡ slice_get self.now r }
    {
        self.rows.as_slice().get(r as usize)
    }

    /// How many requests of an adapter are not answered.
    pub fn unanswered(&self, a: u8) -> u64
        ensures value { result ≡ count_by (open_of a) self.now }
        ensures few { result ≤ most_rows }
    {
        self.unanswered[a as usize]
    }

    /// The least of some requests.
    pub fn first(&self, which: WhichRequests) -> Option<u64>
        ensures { result ≡ position (which_requests which) self.now }
    {
        for i in 0..self.live.len() {
            let r = self.live.at(i);
            if let Some(request) = self.get(r) {
                if which.has(request) {
                    return Some(r);
                }
            }
        }
        None
    }

    /// Whether there are any of some requests.
    #[tactic(auto, using(crate::proofs::Rows::any_is))]
    pub fn any(&self, which: WhichRequests) -> bool
        ensures { result ≡ not (count_by (which_requests which) self.now == 0) }
    {
        self.first(which).is_some()
    }

    /// Puts a request that is not answered behind the last one.
    pub fn push(&mut self, request: Request) -> Result<(), OutOfMemory>
        requires { is_open request.place ≡ true }
        ensures ok { OnOk result (self.new ≡ self.old ++ request ∷ []) }
        ensures err { OnErr result (self.new ≡ self.old) }
    {
        let r = self.rows.len() as u64;
        if r >= MOST_ROWS {
            return Err(OutOfMemory);
        }
        self.rows.reserve(1)?;
        self.live.push(r)?;
        let adapter = request.adapter;
        self.rows.push_reserved(request);
        recount(&mut self.unanswered, adapter.0, false, true);
        Ok(())
    }

    /// Hands a request that is not answered to the miniport, at the enter of this number.
    pub fn hand(&mut self, r: u64, enter: u64)
        requires { at request_open self.old r ≡ true }
        ensures { self.new ≡ change (handed_ask enter) self.old r }
    {
        hand_row(&mut self.rows, r, enter);
    }

    /// Answers a request.
    pub fn answer(&mut self, r: u64)
        ensures { self.new ≡ change answered self.old r }
    {
        let Some(request) = self.get(r) else {
            return;
        };
        let (adapter, was) = (request.adapter, is_open(request.place));
        answer_row(&mut self.rows, r);
        self.live.keep(r, was, false);
        recount(&mut self.unanswered, adapter.0, was, false);
    }
}

/// The row of a request that is handed.
#[tactic(auto, using(crate::specs::Changes::written_at, crate::specs::Changes::change_past))]
fn hand_row(rows: &mut Vec<Request>, r: u64, enter: u64)
    ensures { rows.new.items ≡ change (handed_ask enter) rows.old.items r }
{
    if (r as usize) < rows.len() {
        let row = &mut rows[r as usize];
        row.place = RequestPlace::Handed;
        row.hand = enter;
    }
}

/// The row of a request that is answered.
#[tactic(auto, using(crate::specs::Changes::written_at, crate::specs::Changes::change_past))]
fn answer_row(rows: &mut Vec<Request>, r: u64)
    ensures { rows.new.items ≡ change answered rows.old.items r }
{
    if (r as usize) < rows.len() {
        let row = &mut rows[r as usize];
        row.place = RequestPlace::Answered;
    }
}
