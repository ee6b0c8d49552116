//! Where a handler begins, and at which level.

ghost use Rattle.std.specs.Prelude.{◌≡◌, IfSome};
ghost use Rattle.dpc_timer.specs.ClockState.{IsDue};
ghost use Rattle.legal_run.specs.State.{Inputs};
ghost use Rattle.legal_run.specs.Enters.{address_of, level_of};
ghost use Rattle.miniport_state.specs.Seen.{AreLevels, IsAt, Keeps, Point};
ghost use Rattle.handler_entries.specs.Entries.{IsDueOf, IsInside, function_of, second_word, synchronized};

use adapter_timers::due_timer;
use call_log::Handler;
use guest_world::{TimerFunctions, World};
use miniport_state::{Adapters, Context, handler_address};
use nd_base::{AdapterNo, Addr};
use owed_handlers::sync_caller;
use owner_book::Book;

/// The level that a handler begins at.
pub fn level_of(lines: &[u8; 4], a: AdapterNo, handler: Handler) -> u8
    ghost c: { Inputs }
    requires lines { AreLevels c lines.now }
    requires inside { IsInside c a.0 handler }
    ensures { result ≡ level_of c a.0 handler }
{
    match handler {
        Handler::DriverEntry
        | Handler::Initialize
        | Handler::Halt
        | Handler::PnpEvent
        | Handler::Shutdown => 0,
        Handler::Isr | Handler::DisableInterrupt | Handler::Sync => {
            lines.get(usize::from(a.0)).copied().unwrap_or(0)
        }
        _ => 2,
    }
}

/// The function of a timer.
fn function_of(timers: &TimerFunctions, timer: Option<Addr>) -> u32
    ensures { result ≡ function_of timers.now timer }
{
    match timer {
        Some(timer) => match timers.get(timer) {
            Some(function) => function.function,
            None => 0,
        },
        None => 0,
    }
}

/// The second word of an open call, or 0.
fn second_word(context: &Context) -> u32
    ensures { result ≡ second_word context.now }
{
    match &context.call {
        Some(call) => match call.words.as_slice().get(1) {
            Some(word) => *word,
            None => 0,
        },
        None => 0,
    }
}

/// The function that the call of a context names that waits for it, the second word of the call.
fn synchronized(adapters: &Adapters, caller: Option<u8>) -> u32
    ensures { result ≡ synchronized adapters.now.contexts caller }
{
    match caller {
        Some(x) => match adapters.contexts.get(usize::from(x)) {
            Some(context) => second_word(context),
            None => 0,
        },
        None => 0,
    }
}

/// What an adapter's timer or call is due, if one is.
#[derive(Clone, Copy)]
pub struct Due {
    /// Its due timer.
    pub timer: Option<Addr>,
    /// The context whose call waits for its function to be entered.
    pub caller: Option<u8>,
}

/// What an adapter's timer or call is due.
pub fn due_of(adapters: &Adapters, book: &Book, world: &World, a: AdapterNo) -> Due
    ghost o: { Point }
    requires { IsAt o adapters.now book.now world.now }
    ensures due { IsDueOf o.state a.0 result }
    ensures come { IfSome result.timer (IsDue world.now.clock) }
{
    Due {
        timer: due_timer(world, a),
        caller: sync_caller(adapters, book, a),
    }
}

/// The address at which a handler begins.
pub fn address_of(
    adapters: &Adapters,
    world: &World,
    a: AdapterNo,
    handler: Handler,
    due: Due,
) -> u32
    ghost o: { Point }
    requires keeps { Keeps o.inputs o.state adapters.now }
    requires world { world.now ≡ o.state.world }
    requires due { IsDueOf o.state a.0 due }
    ensures { result ≡ address_of o.inputs o.state a.0 handler }
{
    match handler {
        Handler::DriverEntry => adapters.entry.0,
        Handler::Timer => function_of(&world.timers, due.timer),
        Handler::Sync => synchronized(adapters, due.caller),
        _ => handler_address(world, handler),
    }
}
