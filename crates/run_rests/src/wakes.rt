//! When contexts wake that sleep.

ghost use Rattle.std.specs.Prelude.{◌≡◌, nat_lt, filter, slice_index_or};
ghost use Rattle.std.specs.Option.{option_map};
ghost use Rattle.owner_machine.specs.State.{at};
ghost use Rattle.owner_machine.specs.Handlers.{is_none};
ghost use Rattle.legal_run.specs.State.{clock, is_open_context, no_context};
ghost use Rattle.legal_run.specs.Owed.{least, wakes};
ghost use Rattle.miniport.specs.Waiting.{wake_at};
ghost use Rattle.miniport_state.specs.Seen.{Point, IsAt, Keeps};
ghost use Rattle.miniport_state.specs.Views.{wait_of};

use crate::moments::{earlier, to_come};
use guest_world::World;
use miniport_state::{Adapters, CONTEXTS, Wait};
use nd_base::CtxNo;
use owner_book::Book;
use owner_machine::Context;

/// Whether a handler is open in a context.
fn is_open(book: &Book, x: CtxNo) -> bool
    ensures { result ≡ at is_open_context book.now.contexts x.0 }
{
    matches!(book.context(x), Some(Context::Open { .. }))
}

/// What the open call of a context waits for, if it has one.
fn wait_at(adapters: &Adapters, x: CtxNo) -> Option<Wait>
    ensures { option_map wait_of result ≡ option_map (λ call. call.wait) (slice_index_or adapters.now.contexts x.0 no_context).call }
{
    match adapters.contexts.get(usize::from(x.0)) {
        Some(context) => context.wait(),
        None => None,
    }
}

/// When a context wakes that sleeps.
fn wake_at(adapters: &Adapters, x: CtxNo, book: &Book) -> Option<u64>
    ghost o: { Point }
    requires keeps { Keeps o.inputs o.state adapters.now }
    requires owner { book.now ≡ o.state.owner }
    ensures { result ≡ wake_at o.state x.0 }
{
    if !is_open(book, x) {
        return None;
    }
    match wait_at(adapters, x) {
        Some(Wait::OnClock(wake)) => Some(wake),
        _ => None,
    }
}

/// Whether no context sleeps.
pub(crate) fn none_sleeps(adapters: &Adapters, book: &Book) -> bool
    ghost o: { Point }
    requires keeps { Keeps o.inputs o.state adapters.now }
    requires owner { book.now ≡ o.state.owner }
    ensures { result ≡ is_none (wakes o.state) }
{
    for n in 0..CONTEXTS as u8 {
        if wake_at(adapters, CtxNo(n), book).is_some() {
            return false;
        }
    }
    true
}

/// The earliest moment above the clock at which a context wakes that sleeps.
pub(crate) fn next_wake(adapters: &Adapters, book: &Book, world: &World) -> Option<u64>
    ghost o: { Point }
    requires { IsAt o adapters.now book.now world.now }
    ensures { result ≡ least (filter (λ m. nat_lt (clock o.state) m) (wakes o.state)) }
{
    let now = world.clock.now();
    let mut first = None;
    for n in 0..CONTEXTS as u8 {
        first = earlier(first, to_come(now, wake_at(adapters, CtxNo(n), book)));
    }
    first
}
