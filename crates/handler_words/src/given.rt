//! Words that the miniport gave: its context of an adapter, those of its timers and of its open calls.

ghost use Rattle.std.specs.Prelude.{◌≡◌};
ghost use Rattle.legal_run.specs.State.{State};
ghost use Rattle.legal_run.specs.Enters.{context_word};
ghost use Rattle.handler_words.specs.Given.{called_word, third_word, timer_context};

use guest_world::{TimerFunctions, World};
use miniport_state::{Adapters, Context};
use nd_base::{AdapterNo, Addr};

/// The miniport's own word for the adapter, or 0.
pub(crate) fn context_word(world: &World, a: AdapterNo) -> u32
    ghost s: { State }
    requires { world.now ≡ s.world }
    ensures { result ≡ context_word s a.0 }
{
    match world.adapters.get(usize::from(a.0)) {
        Some(Some(adapter)) => match adapter.attributes {
            Some(attributes) => attributes.context,
            None => 0,
        },
        _ => 0,
    }
}

/// The context of a timer's function, or 0.
pub(crate) fn timer_context(timers: &TimerFunctions, timer: Option<Addr>) -> u32
    ensures { result ≡ timer_context timers.now timer }
{
    match timer {
        Some(timer) => match timers.get(timer) {
            Some(function) => function.context,
            None => 0,
        },
        None => 0,
    }
}

/// The third word of an open call, or 0.
fn third_word(context: &Context) -> u32
    ensures { result ≡ third_word context.now }
{
    match &context.call {
        Some(call) => match call.words.as_slice().get(2) {
            Some(word) => *word,
            None => 0,
        },
        None => 0,
    }
}

/// The third word of the call of a context that waits for its function, or 0.
pub(crate) fn called_word(adapters: &Adapters, caller: Option<u8>) -> u32
    ensures { result ≡ called_word adapters.now.contexts caller }
{
    match caller {
        Some(x) => match adapters.contexts.get(usize::from(x)) {
            Some(context) => third_word(context),
            None => 0,
        },
        None => 0,
    }
}
