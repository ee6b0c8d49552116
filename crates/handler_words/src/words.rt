//! Argument words, by handler.

ghost use Rattle.std.specs.Prelude.{◌≡◌, ◌<◌, List, ℕ, true, IfOk};
ghost use Rattle.legal_run.specs.Enters.{words_of};
ghost use Rattle.miniport_state.specs.Seen.{IsAt, Point};
ghost use Rattle.handler_words.specs.Given.{is_plain};

use crate::events::event_words;
use crate::given::{called_word, context_word, timer_context};
use guest_map::{DRIVER_OBJECT, REGISTRY_PATH, adapter_block, answer_area, configuration_context};
use guest_world::World;
use handler_entries::due_of;
use log_fields::{Handler, Words};
use miniport_state::Adapters;
use nd_base::{AdapterNo, CtxNo, OutOfMemory};
use owner_book::Book;
use std::alloc::Global;

/// The argument words of a handler that is entered for an adapter in a context.
///
/// # Errors
/// [`OutOfMemory`] where no memory is left.
pub fn words_of(
    alloc: Global,
    adapters: &Adapters,
    book: &Book,
    world: &World,
    a: AdapterNo,
    x: CtxNo,
    h: Handler,
) -> Result<Words, OutOfMemory>
    ghost o: { Point }
    requires at { IsAt o adapters.now book.now world.now }
    requires adapter { a.0 < 4 }
    requires context { x.0 < 16 }
    requires plain { is_plain h ≡ true }
    ensures { IfOk result (λ words. (others : List ℕ) → words ≡ words_of o.state a.0 x.0 h others) }
{
    let context = context_word(world, a);
    let area = answer_area(x).first.0;
    match h {
        Handler::DriverEntry => Words::copy(alloc, &[DRIVER_OBJECT, REGISTRY_PATH]),
        Handler::Initialize => {
            let block = adapter_block(a).first.0;
            let configuration = configuration_context(a);
            Words::copy(alloc, &[area, area + 4, area + 8, 1, block, configuration])
        }
        Handler::Reset => Words::copy(alloc, &[area, context]),
        Handler::Isr => Words::copy(alloc, &[area, area + 4, context]),
        Handler::Timer => {
            let due = due_of(adapters, book, world, a);
            let given = timer_context(&world.timers, due.timer);
            Words::copy(alloc, &[0, given, 0, 0])
        }
        Handler::Sync => {
            let due = due_of(adapters, book, world, a);
            Words::copy(alloc, &[called_word(adapters, due.caller)])
        }
        Handler::CancelSend => {
            let cancel = book.next_cancel(a).unwrap_or(0);
            Words::copy(alloc, &[context, cancel])
        }
        Handler::PnpEvent => event_words(alloc, area, context, book.next_event(a)),
        _ => Words::copy(alloc, &[context]),
    }
}
