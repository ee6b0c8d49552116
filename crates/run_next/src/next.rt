//! What must stand directly next, beside what the book of owners asks for.

ghost use Rattle.std.specs.Prelude.{◌≡◌, drop};
ghost use Rattle.legal_run.specs.After.{popped};
ghost use Rattle.run_next.specs.Dues.{next_of};

use call_log::{Cause, Entry};
use nd_base::{Addr, CtxNo, LoanNo};

/// What must stand directly next, beside what the book asks for; at most one of these at a time.
#[derive(Drop)]
pub enum Next {
    Free,
    /// The loan that the words of a MiniportReturnPacket name goes home.
    Takes(LoanNo),
    /// The verdicts that are drawn from a leave.
    Verdicts(Vec<Entry>),
    /// A context waits for the spin lock at an address.
    Spinning(CtxNo, Addr),
    /// The entries that the call of a context makes, the descriptors that it lends, and then its reply.
    Makes(CtxNo, Vec<Entry>, Vec<u32>),
    /// The stops of these adapters.
    Stops(Cause, Vec<u8>),
}

/// Takes the first away, if there is one.
fn drop_first<T: Drop>(items: &mut Vec<T>)
    ensures { items.new.items ≡ drop 1 items.old.items }
{
    if !items.is_empty() {
        items.remove(0);
    }
}

impl Next {
    /// What was due has come.
    pub fn pop(&mut self)
        ensures { next_of self.new ≡ popped (next_of self.old) }
    {
        match self {
            Next::Verdicts(entries) => drop_first(entries),
            Next::Makes(_, entries, lent) => {
                drop_first(entries);
                drop_first(lent);
            }
            Next::Stops(..) => {}
            _ => *self = Next::Free,
        }
    }
}
