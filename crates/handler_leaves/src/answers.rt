//! What a handler that leaves answered.

ghost use Rattle.std.specs.Prelude.{◌≡◌, ◌+◌, ◌<◌, slice_get};
ghost use Rattle.legal_run.specs.State.{State, handler_in};
ghost use Rattle.legal_run.specs.Enters.{area};
ghost use Rattle.legal_run.specs.After.{is_set, recognized};
ghost use Rattle.handler_leaves.specs.Leaves.{IsAnswered};

use call_log::Handler;
use guest_map::answer_area;
use nd_base::{Addr, CtxNo};
use nd_mem::Memory;
use owner_book::Book;
use owner_machine::Context;

/// The handler that is open in a context; DriverEntry where none is.
pub fn handler_of(book: &Book, x: CtxNo) -> Handler
    ensures { result ≡ handler_in (slice_get book.now.contexts x.0) }
{
    match book.context(x) {
        Some(Context::Open { handler, .. }) => handler,
        _ => Handler::DriverEntry,
    }
}

/// Whether the byte at a place, which can be read, is not 0.
fn is_set(memory: &Memory, at: u32) -> bool
    ghost s: { State }
    requires memory { memory.now ≡ s.world.memory }
    requires there { IsAnswered s at }
    ensures { result ≡ is_set s at }
{
    let mut byte = [0; 1];
    match memory.read(Addr(at), &mut byte) {
        Ok(()) => byte[0] != 0,
        Err(_) => unreachable!(),
    }
}

/// Whether MiniportISR recognized the interrupt as its card's, and queues its MiniportHandleInterrupt.
pub fn recognized(memory: &Memory, x: CtxNo) -> bool
    ghost s: { State }
    requires number { x.0 < 16 }
    requires memory { memory.now ≡ s.world.memory }
    requires first { IsAnswered s (area x.0) }
    requires second { IsAnswered s (area x.0 + 4) }
    ensures { result ≡ recognized s x }
{
    let area = answer_area(x).first.0;
    is_set(memory, area) && is_set(memory, area + 4)
}
