//! What must stand directly next.

ghost use Rattle.std.specs.Prelude.{◌≡◌};
ghost use Rattle.std.specs.Option.{option_map};
ghost use Rattle.legal_run.specs.State.{State};
ghost use Rattle.legal_run.specs.Must.{must, next_must, taken_first};
ghost use Rattle.run_next.specs.Dues.{due_as, next_of};

use crate::next::Next;
use call_log::{Cause, Entry};
use nd_base::{AdapterNo, Addr, CtxNo, LoanNo};
use owner_book::Book;
use owner_rules::Duty;

/// What must stand directly next.
#[derive(Clone, Copy)]
pub enum Due<'a> {
    /// What the book asks for.
    Owes(Duty),
    /// This loan goes home.
    Back(LoanNo),
    /// This entry.
    Exactly(&'a Entry),
    /// The context waits for the spin lock at an address.
    Spin(CtxNo, Addr),
    /// The adapter is stopped.
    Stop(AdapterNo, Cause),
    /// The reply of the context's call.
    ReplyOf(CtxNo),
}

/// The loan that must go home before anything else.
fn taken_first(next: &Next) -> Option<Due<'_>>
    ensures { option_map due_as result ≡ taken_first (next_of next.now) }
{
    match next {
        Next::Takes(loan) => Some(Due::Back(*loan)),
        _ => None,
    }
}

/// What must stand where the book asks for nothing.
fn next_must(next: &Next) -> Option<Due<'_>>
    ensures { option_map due_as result ≡ next_must (next_of next.now) }
{
    match next {
        Next::Free => None,
        Next::Takes(loan) => Some(Due::Back(*loan)),
        Next::Verdicts(entries) => match entries.first() {
            Some(entry) => Some(Due::Exactly(entry)),
            None => None,
        },
        Next::Spinning(x, lock) => Some(Due::Spin(*x, *lock)),
        Next::Makes(x, entries, _) => match entries.first() {
            Some(entry) => Some(Due::Exactly(entry)),
            None => Some(Due::ReplyOf(*x)),
        },
        Next::Stops(cause, adapters) => {
            let a = adapters.first()?;
            Some(Due::Stop(AdapterNo(*a), *cause))
        }
    }
}

/// What must stand directly next: the loan that a MiniportReturnPacket was entered for, what the book
/// asks for, the verdicts of a leave, what a call makes and its reply, further stops.
#[tactic(auto, unfolding(legal_run::specs::Must::must))]
pub fn must<'a>(book: &Book, next: &'a Next) -> Option<Due<'a>>
    ghost s: { State }
    requires owner { book.now ≡ s.owner }
    requires next { next_of next.now ≡ s.next }
    ensures { option_map due_as result ≡ must s }
{
    if let Some(taken) = taken_first(next) {
        return Some(taken);
    }
    match book.must() {
        Some(duty) => Some(Due::Owes(duty)),
        None => next_must(next),
    }
}
