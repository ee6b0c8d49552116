//! How an adapter stands.

ghost use Rattle.std.specs.Prelude.{◌≡◌};
ghost use Rattle.owner_machine.specs.State.{is_resetting, phase_is};
ghost use Rattle.owner_machine.specs.Contexts.{serialized};

use nd_base::{AdapterNo, Phase};
use owner_book::Book;

/// Whether a phase is that of a reset.
fn is_reset(phase: Phase) -> bool
    ensures { result ≡ is_resetting phase }
{
    matches!(phase, Phase::Resetting)
}

/// Whether an adapter is resetting.
pub fn is_resetting(book: &Book, a: AdapterNo) -> bool
    ensures { result ≡ phase_is is_resetting book.now a.0 }
{
    if book.adapters() <= usize::from(a.0) {
        return false;
    }
    is_reset(book.standing(a).phase)
}

/// Whether the miniport of an adapter is serialized.
pub fn is_serialized(book: &Book, a: AdapterNo) -> bool
    ensures { result ≡ serialized book.now a.0 }
{
    if book.adapters() <= usize::from(a.0) {
        return false;
    }
    book.standing(a).serialized
}
