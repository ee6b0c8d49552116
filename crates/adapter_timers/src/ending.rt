//! The end of an adapter's timers.

ghost use Rattle.std.specs.Prelude.{◌≡◌, true};
ghost use Rattle.legal_run.specs.State.{State};
ghost use Rattle.legal_run.specs.After.{quieted};
ghost use Rattle.adapter_timers.specs.Cancels.{without};

use dpc_timer::Clock;
use guest_world::{TimerFunctions, World};
use nd_base::{AdapterNo, Addr};

/// Takes each timer of an adapter away.
fn cancel_timers(clock: &mut Clock, timers: &TimerFunctions, a: AdapterNo)
    ensures { clock.new ≡ without timers.now a.0 clock.old }
{
    for (timer, function) in timers.as_map() {
        if function.adapter.0 == a.0 {
            let _ = clock.cancel(Addr(*timer));
        }
    }
}

/// Takes each timer of an adapter away, and its MiniportHandleInterrupt where it is queued.
pub fn quiet(world: &mut World, a: AdapterNo)
    ensures { (s : State) → world.new ≡ quieted s world.old a.0 }
{
    cancel_timers(&mut world.clock, &world.timers, a);
    let _ = world.clock.take_dpc(a);
}
