//! Phases of adapters.

ghost use Rattle.std.specs.Prelude.{◌≡◌};
ghost use Rattle.owner_machine.specs.State.{is_resetting, is_running, is_stopped, phase_is};
ghost use Rattle.legal_run.specs.State.{is_off, is_starting};

use nd_base::{AdapterNo, Phase};
use owner_book::Book;

/// Whether an adapter is starting.
pub(crate) fn is_starting(book: &Book, a: AdapterNo) -> bool
    ensures { result ≡ phase_is is_starting book.now a.0 }
{
    usize::from(a.0) < book.adapters() && matches!(book.standing(a).phase, Phase::Starting)
}

/// Whether an adapter runs.
pub(crate) fn is_running(book: &Book, a: AdapterNo) -> bool
    ensures { result ≡ phase_is is_running book.now a.0 }
{
    usize::from(a.0) < book.adapters() && matches!(book.standing(a).phase, Phase::Running)
}

/// Whether an adapter resets.
pub(crate) fn is_resetting(book: &Book, a: AdapterNo) -> bool
    ensures { result ≡ phase_is is_resetting book.now a.0 }
{
    usize::from(a.0) < book.adapters() && matches!(book.standing(a).phase, Phase::Resetting)
}

/// Whether an adapter is off.
pub(crate) fn is_off(book: &Book, a: AdapterNo) -> bool
    ensures { result ≡ phase_is is_off book.now a.0 }
{
    usize::from(a.0) < book.adapters() && matches!(book.standing(a).phase, Phase::Off)
}

/// Whether an adapter is stopped.
pub(crate) fn is_stopped(book: &Book, a: AdapterNo) -> bool
    ensures { result ≡ phase_is is_stopped book.now a.0 }
{
    usize::from(a.0) < book.adapters() && matches!(book.standing(a).phase, Phase::Stopped)
}
