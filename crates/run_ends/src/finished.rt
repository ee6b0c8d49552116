//! Whether an adapter is finished.

ghost use Rattle.std.specs.Prelude.{◌≡◌};
ghost use Rattle.owner_machine.specs.State.{is_stopped, phase_is};
ghost use Rattle.legal_run.specs.State.{State, is_off};
ghost use Rattle.legal_run.specs.Owed.{is_finished};

use nd_base::{AdapterNo, Phase};
use owner_book::{Book, Group};

fn is_off(book: &Book, a: AdapterNo) -> bool
    ensures { result ≡ phase_is is_off book.now a.0 }
{
    usize::from(a.0) < book.adapters() && matches!(book.standing(a).phase, Phase::Off)
}

fn is_stopped(book: &Book, a: AdapterNo) -> bool
    ensures { result ≡ phase_is is_stopped book.now a.0 }
{
    usize::from(a.0) < book.adapters() && matches!(book.standing(a).phase, Phase::Stopped)
}

/// Whether an adapter is finished: stopped, or off with nothing outstanding and no handler open.
pub fn is_finished(book: &Book, a: AdapterNo) -> bool
    ghost s: { State }
    requires { book.now ≡ s.owner }
    ensures { result ≡ is_finished s a.0 }
{
    let stopped = is_stopped(book, a);
    let off = is_off(book, a);
    let nothing = book.outstanding(a) == 0;
    let idle = book.none_runs(Group::Any, a);
    stopped || (off && (nothing && idle))
}
