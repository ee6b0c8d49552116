//! What an enter takes from what was owed.

ghost use Rattle.std.specs.Prelude.{◌≡◌, ◌<◌, ◌+◌, ◌^◌, IfSome, ℕ, List};
ghost use Rattle.log_fields.specs.declared.write.Write.{Write};
ghost use Rattle.dpc_timer.specs.ClockState.{IsDue};
ghost use Rattle.legal_run.specs.State.{OnSync, Entered, clock};
ghost use Rattle.legal_run.specs.After.{hang_period, taken, with_wait};
ghost use Rattle.miniport_state.specs.Seen.{Keeps, Point};
ghost use Rattle.handler_entries.specs.Entries.{IsDueOf};

use crate::places::Due;
use call_log::Handler;
use guest_world::World;
use miniport::{hang_period, set_check, set_enables, set_initialized, set_wait};
use miniport_state::{Adapters, Entrance, Stage, Wait};
use nd_base::AdapterNo;

/// A call waits for the leave of its function.
fn wait_for_leave(adapters: &mut Adapters, caller: Option<u8>)
    ghost o: { Point }
    requires { Keeps o.inputs o.state adapters.old }
    ensures { Keeps o.inputs (with_wait o.state caller (OnSync Entered)) adapters.new }
{
    let caller = match caller {
        Some(x) => Some(u64::from(x)),
        None => None,
    };
    set_wait(adapters, caller, Wait::OnSync(Stage::Entered));
}

/// Takes what the enter of a handler takes.
pub fn take(adapters: &mut Adapters, world: &mut World, a: AdapterNo, handler: Handler, due: Due)
    ghost o: { Point }
    requires keeps { Keeps o.inputs o.state adapters.old }
    requires world { world.old ≡ o.state.world }
    requires due { IsDueOf o.state a.0 due }
    requires come { IfSome due.timer (IsDue world.old.clock) }
    requires time { clock o.state + hang_period o.state a.0 < 2 ^ 64 }
    ensures keeps { (words : List ℕ) (writes : List Write) → Keeps o.inputs (taken o.state a.0 handler words writes) adapters.new }
    ensures world { (words : List ℕ) (writes : List Write) → world.new ≡ (taken o.state a.0 handler words writes).world }
{
    match handler {
        Handler::DriverEntry => adapters.entrance = Entrance::Inside,
        Handler::Initialize => set_initialized(adapters, a),
        Handler::HandleInterrupt => {
            let _ = world.clock.take_dpc(a);
        }
        Handler::EnableInterrupt => set_enables(adapters, a, false),
        Handler::CheckForHang => {
            let check = world.clock.now() + hang_period(world, a);
            set_check(adapters, a, check);
        }
        Handler::Timer => {
            if let Some(timer) = due.timer {
                world.clock.fire(timer);
            }
        }
        Handler::Sync => wait_for_leave(adapters, due.caller),
        _ => {}
    }
}
