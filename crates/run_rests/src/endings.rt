//! What is left to do for an adapter.

ghost use Rattle.std.specs.Prelude.{◌≡◌};
ghost use Rattle.std.specs.Option.{option_map};
ghost use Rattle.owner_machine.specs.State.{at};
ghost use Rattle.legal_run.specs.State.{State};
ghost use Rattle.legal_run.specs.Owed.{all_finished, first, is_finished, is_kept_busy, silent_one};
ghost use Rattle.legal_run.specs.After.{unfinished};
ghost use Rattle.miniport_state.specs.Seen.{Point, Keeps};

use crate::phases::{is_off, is_resetting, is_running, is_stopped};
use miniport_state::Adapters;
use nd_base::AdapterNo;
use owner_book::{Book, Group, WhichLoans, WhichPackets, WhichRequests};

/// Whether an adapter is finished: stopped, or off with nothing outstanding and no handler open.
pub fn is_finished(book: &Book, a: AdapterNo) -> bool
    ghost s: { State }
    requires { book.now ≡ s.owner }
    ensures { result ≡ is_finished s a.0 }
{
    let stopped = is_stopped(book, a);
    let off = is_off(book, a);
    let nothing = book.outstanding(a) == 0;
    let idle = book.none_runs(Group::Any, a);
    stopped || (off && (nothing && idle))
}

/// Whether every adapter is finished.
pub fn all_finished(adapters: &Adapters, book: &Book) -> bool
    ghost o: { Point }
    requires keeps { Keeps o.inputs o.state adapters.now }
    requires owner { book.now ≡ o.state.owner }
    ensures { result ≡ all_finished o.inputs o.state }
{
    for n in 0..adapters.charges.len() {
        if !is_finished(book, AdapterNo(n as u8)) {
            return false;
        }
    }
    true
}

/// The lowest adapter that is not finished.
pub fn first_unfinished(adapters: &Adapters, book: &Book) -> Option<AdapterNo>
    ghost o: { Point }
    requires keeps { Keeps o.inputs o.state adapters.now }
    requires owner { book.now ≡ o.state.owner }
    ensures { option_map (λ a. a.0) result ≡ first (unfinished o.inputs o.state) }
{
    for n in 0..adapters.charges.len() {
        if !is_finished(book, AdapterNo(n as u8)) {
            return Some(AdapterNo(n as u8));
        }
    }
    None
}

/// Whether a reset of an adapter is owed.
fn owes_reset(book: &Book, a: AdapterNo) -> bool
    ensures { result ≡ at (λ row. row.owes_reset) book.now.adapters a.0 }
{
    usize::from(a.0) < book.adapters() && book.standing(a).reset
}

/// Whether something keeps an adapter busy that is not stopped: a packet, a loan that is due, a
/// request, a reset, an open handler.
fn is_kept_busy(book: &Book, a: AdapterNo) -> bool
    ghost s: { State }
    requires { book.now ≡ s.owner }
    ensures { result ≡ is_kept_busy s a.0 }
{
    let stopped = is_stopped(book, a);
    let queued = book.has_packet(WhichPackets::QueuedOf(a.0));
    let held = book.has_packet(WhichPackets::HeldOf(a.0));
    let due = book.has_loan(WhichLoans::DueOf(a.0));
    let open = book.has_request(WhichRequests::OpenOf(a.0));
    let running = is_running(book, a);
    let owes = owes_reset(book, a);
    let resetting = is_resetting(book, a);
    let idle = book.none_runs(Group::Any, a);
    !stopped && (queued || (held || (due || (open || ((running && owes) || (resetting || !idle))))))
}

/// The lowest adapter that something keeps busy.
pub fn silent_one(adapters: &Adapters, book: &Book) -> Option<AdapterNo>
    ghost o: { Point }
    requires keeps { Keeps o.inputs o.state adapters.now }
    requires owner { book.now ≡ o.state.owner }
    ensures { option_map (λ a. a.0) result ≡ silent_one o.inputs o.state }
{
    for n in 0..adapters.charges.len() {
        if is_kept_busy(book, AdapterNo(n as u8)) {
            return Some(AdapterNo(n as u8));
        }
    }
    None
}
