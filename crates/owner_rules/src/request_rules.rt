//! What may become of requests.
//!
//! (DDK: NdisRequest, MiniportQueryInformation, MiniportSetInformation, NdisMQueryInformationComplete,
//! NdisMSetInformationComplete.)

ghost use Rattle.std.specs.Prelude.{◌≡◌};
ghost use Rattle.owner_machine.specs.State.{at};
ghost use Rattle.owner_machine.specs.Requests.{request_adapter, first_asked, phase_of, refused_with, may_ask, hands_ask, may_hand_ask, by_verdict, by_call, by_stop, may_end_ask, may_answer};
ghost use Rattle.owner_rules.specs.State.{owner_of};

use crate::ledger::Ledger;
use crate::logic::is_number;
use crate::phase_rules::NO_ADAPTER;
use crate::question_rules::{is_set, refusal};
use call_log::Question;
use nd_base::Phase;
use owner_machine::{Next, Request};
use owner_rows::{WhichRequests, is_handed, is_open, is_turned_away};

/// NdisMQueryInformationComplete's number among the imports.
const QUERY_COMPLETE: u8 = 43;

/// NdisMSetInformationComplete's number among the imports.
const SET_COMPLETE: u8 = 44;

fn hands_ask(next: &Next, a: u8) -> bool
    ensures { result ≡ hands_ask next.now a }
{
    match next {
        Next::HandingAsk { adapter, .. } => adapter.0 == a,
        _ => false,
    }
}

/// Whether the handler that was handed a request left just now.
fn by_verdict(next: &Next, request: &Request) -> bool
    ensures { result ≡ by_verdict next.now request.now }
{
    match next {
        Next::Left { adapter, enter, .. } => {
            is_handed(request.place) && (request.adapter.0 == adapter.0 && request.hand == *enter)
        }
        _ => false,
    }
}

fn by_stop(next: &Next, request: &Request) -> bool
    ensures { result ≡ by_stop next.now request.now }
{
    match next {
        Next::Tail { adapter } => is_open(request.place) && request.adapter.0 == adapter.0,
        _ => false,
    }
}

impl Ledger {
    /// The adapter of a request; 255 for none.
    pub fn request_adapter(&self, r: u64) -> u8
        ensures { result ≡ request_adapter (owner_of self.now) r }
    {
        match self.requests.get(r) {
            Some(request) => request.adapter.0,
            None => NO_ADAPTER,
        }
    }

    /// The least request that an adapter's miniport is to be asked.
    pub fn first_asked(&self, a: u8) -> Option<u64>
        ensures { result ≡ first_asked (owner_of self.now) a }
    {
        self.requests.first(WhichRequests::AskedOf(a))
    }

    fn phase_of(&self, a: u8) -> Option<Phase>
        ensures { result ≡ phase_of (owner_of self.now) a }
    {
        match self.adapters.get(a as usize) {
            Some(row) => Some(row.phase),
            None => None,
        }
    }

    /// The status with which an adapter refuses a question, if it does.
    pub fn refused_with(&self, a: u8, question: &Question) -> Option<u32>
        ensures { result ≡ refused_with (owner_of self.now) a question.now }
    {
        refusal(self.phase_of(a), question)
    }

    pub(crate) fn may_ask(&self, b: u8, r: u64) -> bool
        ensures { result ≡ may_ask (owner_of self.now) b r }
    {
        self.is_bound(b) && r == self.requests.len()
    }

    pub(crate) fn may_hand_ask(&self, r: u64) -> bool
        ensures { result ≡ may_hand_ask (owner_of self.now) r }
    {
        let a = self.request_adapter(r);
        let handing = hands_ask(&self.next, a);
        let first = is_number(self.first_asked(a), r);
        let busy = self.requests.any(WhichRequests::HandedOf(a));
        handing && (first && !busy)
    }

    fn by_call(&self, request: &Request) -> bool
        ensures { result ≡ by_call (owner_of self.now) request.now }
    {
        let import = if is_set(&request.question) {
            SET_COMPLETE
        } else {
            QUERY_COMPLETE
        };
        let called = self.in_call(request.adapter.0, import);
        is_handed(request.place) && called
    }

    fn may_end_ask(&self, request: &Request) -> bool
        ensures { result ≡ may_end_ask (owner_of self.now) request.now }
    {
        let judged = by_verdict(&self.next, request);
        let called = self.by_call(request);
        let stopped = by_stop(&self.next, request);
        judged || (called || (is_turned_away(request.place) || stopped))
    }

    pub(crate) fn may_answer(&self, r: u64) -> bool
        ensures { result ≡ may_answer (owner_of self.now) r }
    {
        match self.requests.get(r) {
            Some(request) => self.may_end_ask(request),
            None => false,
        }
    }
}
