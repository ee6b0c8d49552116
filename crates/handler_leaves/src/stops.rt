//! Stops: what becomes of a world whose adapter is stopped.

ghost use Rattle.std.specs.Prelude.{◌≡◌, ◌<◌, filter, length};
ghost use Rattle.std.specs.List.{list_all};
ghost use Rattle.owner_machine.specs.State.{is_stopped, phase_is};
ghost use Rattle.legal_run.specs.State.{adapters_of, all_contexts};
ghost use Rattle.legal_run.specs.After.{all_ended, ends_context, is_stopped_but, quieted};
ghost use Rattle.miniport_state.specs.Seen.{Point};

use adapter_timers::quiet;
use guest_world::World;
use nd_base::{AdapterNo, CtxNo, Phase};
use owner_book::Book;
use owner_machine::Context;

/// How many contexts there are.
const CONTEXTS: u8 = 16;

/// Whether an adapter is this one or stopped.
fn is_stopped_but(book: &Book, a: AdapterNo, b: AdapterNo) -> bool
    ghost o: { Point }
    requires { book.now ≡ o.state.owner }
    ensures { result ≡ is_stopped_but o.state a.0 b.0 }
{
    b.0 == a.0
        || usize::from(b.0) < book.adapters() && matches!(book.standing(b).phase, Phase::Stopped)
}

/// Whether every other adapter is stopped.
fn is_last(book: &Book, a: AdapterNo) -> bool
    ghost o: { Point }
    requires owner { book.now ≡ o.state.owner }
    requires count { length book.now.adapters ≡ length o.inputs.adapters }
    requires few { length o.inputs.adapters < 256 }
    ensures { result ≡ list_all (is_stopped_but o.state a.0) (adapters_of o.inputs) }
{
    for b in 0..book.adapters() as u8 {
        if !is_stopped_but(book, a, AdapterNo(b)) {
            return false;
        }
    }
    true
}

/// Whether a context ends with the adapter: it is its own, or that of DriverEntry where no other adapter
/// is left.
fn ends(book: &Book, a: AdapterNo, last: bool, x: CtxNo) -> bool
    ghost o: { Point }
    requires owner { book.now ≡ o.state.owner }
    requires last { last ≡ list_all (is_stopped_but o.state a.0) (adapters_of o.inputs) }
    ensures { result ≡ ends_context o.inputs o.state a.0 x.0 }
{
    match book.context(x) {
        Some(
            Context::Open {
                adapter: Some(adapter),
                ..
            },
        ) => adapter.0 == a.0,
        Some(Context::Open { adapter: None, .. }) => last,
        _ => false,
    }
}

/// Takes an adapter's part out of the world where it is stopped: its timers, its queued handler, and the
/// levels, holds and spins of the contexts that go with it. The book is that in front of the stop.
pub fn stop(world: &mut World, book: &Book, a: AdapterNo)
    ghost o: { Point }
    requires world { world.old ≡ o.state.world }
    requires owner { book.now ≡ o.state.owner }
    requires count { length book.now.adapters ≡ length o.inputs.adapters }
    requires few { length o.inputs.adapters < 256 }
    ensures { world.new ≡ all_ended (quieted o.state o.state.world a.0) (filter (ends_context o.inputs o.state a.0) all_contexts) }
{
    let last = is_last(book, a);
    quiet(world, a);
    for n in 0..CONTEXTS {
        let x = CtxNo(n);
        if ends(book, a, last, x) {
            world.levels.end(x);
        }
    }
}
