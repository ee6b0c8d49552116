//! Calls of NdisMSynchronizeWithInterrupt whose functions are to be entered.

ghost use Rattle.std.specs.Prelude.{◌≡◌, ◌&&◌, slice_index_or, slice_get};
ghost use Rattle.guest_world.specs.declared.world.World.{World};
ghost use Rattle.owner_machine.specs.State.{at};
ghost use Rattle.legal_run.specs.State.{no_context, is_open_context, is_adapter, adapter_in};
ghost use Rattle.legal_run.specs.Owed.{wants_sync, sync_caller};
ghost use Rattle.owed_handlers.specs.Kept.{state_of, is_caller};

use miniport_state::{Adapters, Stage, Wait};
use nd_base::{AdapterNo, CtxNo};
use owner_book::Book;
use owner_machine::Context;

/// The contexts.
const CONTEXTS: [u8; 16] = [0, 1, 2, 3, 4, 5, 6, 7, 8, 9, 10, 11, 12, 13, 14, 15];

/// A context is open, and an adapter's.
fn is_context_of(book: &Book, a: AdapterNo, x: u8) -> bool
    ensures { result ≡ (at is_open_context book.now.contexts x && is_adapter a.0 (adapter_in (slice_get book.now.contexts x))) }
{
    match book.context(CtxNo(x)) {
        Some(
            Context::Open {
                adapter: Some(adapter),
                ..
            },
        ) => adapter.0 == a.0,
        _ => false,
    }
}

/// A context's call waits for its function to be entered.
fn wants_sync(adapters: &Adapters, x: u8) -> bool
    ensures { result ≡ wants_sync (slice_index_or adapters.now.contexts x no_context).call }
{
    match adapters.contexts.get(usize::from(x)) {
        Some(context) => matches!(context.wait(), Some(Wait::OnSync(Stage::Needed))),
        None => false,
    }
}

/// A context is an adapter's, and its call waits for its function to be entered.
fn is_caller(adapters: &Adapters, book: &Book, a: AdapterNo, x: u8) -> bool
    ensures { result ≡ is_caller adapters.now.contexts book.now.contexts a.0 x }
{
    is_context_of(book, a, x) && wants_sync(adapters, x)
}

/// The lowest context of an adapter whose call waits for its function to be entered.
pub fn sync_caller(adapters: &Adapters, book: &Book, a: AdapterNo) -> Option<u8>
    ensures { (w : World) → result ≡ sync_caller (state_of adapters.now book.now w) a.0 }
{
    CONTEXTS
        .iter()
        .find(|x| is_caller(adapters, book, a, **x))
        .copied()
}
