//! The interrupt lines of cards (Windows DDK, "Registering Interrupts").

ghost use Rattle.std.specs.Prelude.{◌≡◌, ◌&&◌, ◌||◌, not, slice_index_or, None};
ghost use Rattle.dpc_timer.specs.ClockState.{is_queued};
ghost use Rattle.owner_machine.specs.Contexts.{none_runs, is_dpc};
ghost use Rattle.legal_run.specs.Owed.{is_raised, enters_isr};

use guest_world::World;
use nd_base::AdapterNo;
use owner_book::Book;

/// An adapter's line is up, its interrupt is registered, and its attributes are set.
fn is_raised(world: &World, a: AdapterNo) -> bool
    ensures { result ≡ is_raised (slice_index_or world.now.adapters a.0 None) }
{
    match world.adapters.get(usize::from(a.0)) {
        Some(Some(part)) => {
            let up = part.card.line();
            let registered = part.interrupt.is_some();
            let set = part.attributes.is_some();
            up && (registered && set)
        }
        _ => false,
    }
}

/// An adapter's registration asked for the ISR, or for a shared line.
pub(crate) fn enters_isr(world: &World, a: AdapterNo) -> bool
    ensures { result ≡ enters_isr (slice_index_or world.now.adapters a.0 None) }
{
    match world.adapters.get(usize::from(a.0)) {
        Some(Some(part)) => match part.interrupt {
            Some(interrupt) => interrupt.enters_isr,
            None => false,
        },
        _ => false,
    }
}

/// An adapter's line is masked: its MiniportHandleInterrupt is queued or open.
fn is_masked(book: &Book, world: &World, a: AdapterNo) -> bool
    ensures { result ≡ (is_queued world.now.clock a || not (none_runs book.now is_dpc a.0)) }
{
    let queued = world.clock.queued(a);
    let closed = book.no_dpc_is_open(a);
    queued || !closed
}

/// An adapter's line asks for a handler.
pub(crate) fn line_asks(book: &Book, world: &World, a: AdapterNo) -> bool
    ensures { result ≡ (is_raised (slice_index_or world.now.adapters a.0 None)
        && not (is_queued world.now.clock a || not (none_runs book.now is_dpc a.0))) }
{
    let raised = is_raised(world, a);
    let masked = is_masked(book, world, a);
    raised && !masked
}
