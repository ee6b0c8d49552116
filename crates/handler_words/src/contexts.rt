//! Contexts that no handler is open in.

ghost use Rattle.std.specs.Prelude.{◌≡◌, ◌<◌, ℕ, true, false, IfSome, IfNone};
ghost use Rattle.std.specs.List.{list_any};
ghost use Rattle.owner_machine.specs.State.{at};
ghost use Rattle.legal_run.specs.State.{State, all_contexts, is_free, is_free_context};

use nd_base::CtxNo;
use owner_book::Book;
use owner_machine::Context;

/// How many contexts there are.
const CONTEXTS: u8 = 16;

/// Whether no handler is open in the context.
fn is_free(book: &Book, x: CtxNo) -> bool
    ensures { result ≡ at is_free_context book.now.contexts x.0 }
{
    match book.context(x) {
        None | Some(Context::Open { .. }) => false,
        Some(_) => true,
    }
}

/// The free context of least number.
pub fn free_context(book: &Book) -> Option<CtxNo>
    ghost s: { State }
    requires { book.now ≡ s.owner }
    ensures some { IfSome result (λ x. (x.0 < 16) × (is_free s x.0 ≡ true)) }
    ensures least { IfSome result (λ x. (y : ℕ) → y < x.0 → is_free s y ≡ false) }
    ensures none { IfNone result (list_any (is_free s) all_contexts ≡ false) }
{
    for n in 0..CONTEXTS {
        if is_free(book, CtxNo(n)) {
            return Some(CtxNo(n));
        }
    }
    None
}
