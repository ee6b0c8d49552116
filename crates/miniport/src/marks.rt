//! What is kept of an adapter's progress and of what a call waits for, changed.

ghost use Rattle.std.specs.Prelude.{◌≡◌, true};
ghost use Rattle.legal_run.specs.State.{State};
ghost use Rattle.legal_run.specs.After.{hang_period, with_progress, with_wait};
ghost use Rattle.miniport_state.specs.Views.{wait_of};
ghost use Rattle.miniport_state.specs.Seen.{Keeps, Point};
ghost use Rattle.miniport.specs.Waiting.{waiting_for};

use guest_world::World;
use miniport_state::{Adapters, Context, Wait};
use nd_base::AdapterNo;

/// The period of an adapter's hang checks, in microseconds; 0 without attributes.
pub fn hang_period(world: &World, a: AdapterNo) -> u64
    ghost s: { State }
    requires { world.now ≡ s.world }
    ensures { result ≡ hang_period s a.0 }
{
    match world.adapters.get(usize::from(a.0)) {
        Some(Some(adapter)) => match adapter.attributes {
            Some(attributes) => attributes.hang_period,
            None => 0,
        },
        _ => 0,
    }
}

/// The moment of an adapter's next hang check is set.
pub fn set_check(adapters: &mut Adapters, a: AdapterNo, check: u64)
    ghost o: { Point }
    requires { Keeps o.inputs o.state adapters.old }
    ensures { Keeps o.inputs (with_progress o.state a.0 (λ p. record p { check = check })) adapters.new }
{
    let place = usize::from(a.0);
    if place < adapters.progress.len() {
        let progress = &mut adapters.progress[place];
        progress.check = check;
    }
}

/// An adapter's MiniportEnableInterrupt is due, or is not.
pub fn set_enables(adapters: &mut Adapters, a: AdapterNo, due: bool)
    ghost o: { Point }
    requires { Keeps o.inputs o.state adapters.old }
    ensures { Keeps o.inputs (with_progress o.state a.0 (λ p. record p { enables = due })) adapters.new }
{
    let place = usize::from(a.0);
    if place < adapters.progress.len() {
        let progress = &mut adapters.progress[place];
        progress.enables = due;
    }
}

/// An adapter's MiniportInitialize was entered.
pub fn set_initialized(adapters: &mut Adapters, a: AdapterNo)
    ghost o: { Point }
    requires { Keeps o.inputs o.state adapters.old }
    ensures { Keeps o.inputs (with_progress o.state a.0 (λ p. record p { initialized = true })) adapters.new }
{
    let place = usize::from(a.0);
    if place < adapters.progress.len() {
        let progress = &mut adapters.progress[place];
        progress.initialized = true;
    }
}

/// A context's open call waits for something else.
fn wait_for(context: &mut Context, wait: Wait)
    ensures { context.new ≡ record context.old { call = waiting_for (wait_of wait) context.old.call } }
{
    if let Some(call) = &mut context.call {
        call.wait = wait;
    }
}

/// The open call of a context that called for a function waits for something else.
pub fn set_wait(adapters: &mut Adapters, caller: Option<u64>, wait: Wait)
    ghost o: { Point }
    requires { Keeps o.inputs o.state adapters.old }
    ensures { Keeps o.inputs (with_wait o.state caller (wait_of wait)) adapters.new }
{
    if let Some(x) = caller {
        let place = x as usize;
        if place < adapters.contexts.len() {
            wait_for(&mut adapters.contexts[place], wait);
        }
    }
}
