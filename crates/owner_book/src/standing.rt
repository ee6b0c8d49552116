//! What is told of an adapter.

ghost use Rattle.std.specs.Prelude.{◌≡◌, ◌<◌, ◌==◌, not, count_by, length};
ghost use Rattle.owner_machine.specs.State.{at};
ghost use Rattle.owner_machine.specs.Requests.{is_set};
ghost use Rattle.owner_machine.specs.Handlers.{is_none};
ghost use Rattle.owner_book.specs.Standings.{waiting_request, is_unfinished, IsStanding};
ghost use Rattle.owner_rules.specs.State.{owner_of};

use call_log::Question;
use nd_base::Phase;
use owner_rows::{WhichLoans, WhichPackets, WhichRequests};
use owner_rules::{Group, Ledger};

/// How an adapter stands.
#[derive(Clone, Copy)]
pub struct Standing {
    pub phase: Phase,
    /// Its miniport is serialized.
    pub serialized: bool,
    /// A reset is owed.
    pub reset: bool,
    /// A packet is queued, and the adapter is not held back.
    pub send: bool,
    /// A loan is due.
    pub home: bool,
    /// Whether the least request that waits is a set; none where none waits, or the miniport has one.
    pub request: Option<bool>,
    /// Every driver of it has unbound.
    pub unbound: bool,
    /// It has a packet queued or at its miniport, a loan due, a request not answered, a reset that it
    /// owes while it runs or that has not ended, or an open handler.
    pub unfinished: bool,
    /// A cancel id waits for its MiniportCancelSendPackets.
    pub cancel: bool,
    /// An event waits for its MiniportPnPEventNotify.
    pub event: bool,
}

fn owes_reset(ledger: &Ledger, a: u8) -> bool
    ensures { result ≡ at (λ row. row.owes_reset) ledger.now.adapters.items a }
{
    match ledger.adapters.get(a as usize) {
        Some(row) => row.owes_reset,
        None => false,
    }
}

fn is_not_held_back(ledger: &Ledger, a: u8) -> bool
    ensures { result ≡ at (λ row. not row.held_back) ledger.now.adapters.items a }
{
    match ledger.adapters.get(a as usize) {
        Some(row) => !row.held_back,
        None => false,
    }
}

/// Whether a request is a set.
fn is_set(ledger: &Ledger, r: u64) -> bool
    ensures { result ≡ at (λ q. is_set q.question) ledger.now.requests r }
{
    match ledger.requests.get(r) {
        Some(request) => matches!(request.question, Question::Set { .. }),
        None => false,
    }
}

fn waiting_request(ledger: &Ledger, a: u8) -> Option<bool>
    ensures { result ≡ waiting_request (owner_of ledger.now) a }
{
    if ledger.requests.any(WhichRequests::HandedOf(a)) {
        return None;
    }
    match ledger.first_asked(a) {
        Some(r) => Some(is_set(ledger, r)),
        None => None,
    }
}

fn is_unfinished(ledger: &Ledger, a: u8) -> bool
    ensures { result ≡ is_unfinished (owner_of ledger.now) a }
{
    let queued = ledger.packets.any(WhichPackets::QueuedOf(a));
    let held = ledger.packets.any(WhichPackets::HeldOf(a));
    let due = ledger.loans.any(WhichLoans::DueOf(a));
    let asked = ledger.requests.any(WhichRequests::OpenOf(a));
    let owed = owes_reset(ledger, a);
    let running = ledger.is_running(a);
    let resetting = ledger.is_resetting(a);
    let idle = ledger.none_runs(Group::Any, a);
    let owing = running && owed;
    queued || (held || (due || (asked || (owing || (resetting || !idle)))))
}

/// Whether a cancel id waits.
fn has_cancel(ledger: &Ledger, a: u8) -> bool
    ensures { result ≡ at (λ row. not (is_none row.cancels)) ledger.now.adapters.items a }
{
    match ledger.adapters.get(a as usize) {
        Some(row) => !row.cancels.is_empty(),
        None => false,
    }
}

/// Whether an event waits.
fn has_event(ledger: &Ledger, a: u8) -> bool
    ensures { result ≡ at (λ row. not (is_none row.events)) ledger.now.adapters.items a }
{
    match ledger.adapters.get(a as usize) {
        Some(row) => !row.events.is_empty(),
        None => false,
    }
}

/// How an adapter stands.
pub(crate) fn standing_of(ledger: &Ledger, a: u8) -> Standing
    requires { a < length ledger.now.adapters.items }
    ensures { IsStanding (owner_of ledger.now) a result }
{
    let queued = ledger.packets.any(WhichPackets::QueuedOf(a));
    let free = is_not_held_back(ledger, a);
    Standing {
        phase: ledger.adapters[a as usize].phase,
        serialized: ledger.is_serialized(a),
        reset: owes_reset(ledger, a),
        send: queued && free,
        home: ledger.loans.any(WhichLoans::DueOf(a)),
        request: waiting_request(ledger, a),
        unbound: ledger.none_stays_bound(a),
        unfinished: is_unfinished(ledger, a),
        cancel: has_cancel(ledger, a),
        event: has_event(ledger, a),
    }
}
