//! What a leave takes and sets, by the handler that leaves.

ghost use Rattle.std.specs.Prelude.{◌≡◌, ◌<◌, slice_index_or};
ghost use Rattle.legal_run.specs.State.{no_context};
ghost use Rattle.legal_run.specs.Owed.{first};
ghost use Rattle.legal_run.specs.After.{left_row};
ghost use Rattle.miniport_state.specs.Seen.{Keeps, Point};
ghost use Rattle.handler_leaves.specs.Leaves.{IsRead, IsInTime};

use crate::answers::recognized;
use adapter_timers::quiet;
use call_log::Handler;
use guest_world::World;
use miniport::{hang_period, set_check, set_enables, set_wait};
use miniport_state::{Adapters, Entrance, Stage, Wait, has_handler};
use nd_base::{AdapterNo, CtxNo};

/// NDIS_STATUS_SUCCESS.
const SUCCESS: u32 = 0;

/// What the handler of a context was entered for: the first of it.
fn first_subject(adapters: &Adapters, x: CtxNo) -> Option<u64>
    requires { x.0 < 16 }
    ensures { result ≡ first (slice_index_or adapters.now.contexts x.0 no_context).subject }
{
    let context = &adapters.contexts[usize::from(x.0)];
    context.subject.first().copied()
}

/// A handler that leaves: its context, its adapter, and the status that it answers.
#[derive(Clone, Copy)]
pub struct Left {
    pub context: CtxNo,
    pub adapter: AdapterNo,
    pub handler: Handler,
    pub eax: u32,
}

/// Takes and sets what its handler does when it leaves.
pub fn settle(adapters: &mut Adapters, left: Left, world: &mut World)
    ghost o: { Point }
    requires keeps { Keeps o.inputs o.state adapters.old }
    requires world { world.old ≡ o.state.world }
    requires number { left.context.0 < 16 }
    requires read { IsRead o.state left.context left.handler }
    requires time { IsInTime o.state left.adapter.0 }
    ensures keeps { Keeps o.inputs (left_row o.inputs o.state left.adapter.0 left.context left.eax left.handler) adapters.new }
    ensures world { world.new ≡ (left_row o.inputs o.state left.adapter.0 left.context left.eax left.handler).world }
{
    let a = left.adapter;
    match left.handler {
        Handler::DriverEntry => adapters.entrance = Entrance::Gone(left.eax),
        Handler::Initialize if left.eax == SUCCESS => {
            let check = world.clock.now() + hang_period(world, a);
            set_check(adapters, a, check);
        }
        Handler::Initialize | Handler::Halt | Handler::Shutdown => quiet(world, a),
        Handler::Isr => {
            if recognized(&world.memory, left.context) {
                world.clock.queue_dpc(a);
            }
        }
        Handler::DisableInterrupt => world.clock.queue_dpc(a),
        Handler::HandleInterrupt => {
            if has_handler(world, Handler::EnableInterrupt) {
                set_enables(adapters, a, true);
            }
        }
        Handler::Sync => {
            let caller = first_subject(adapters, left.context);
            set_wait(adapters, caller, Wait::OnSync(Stage::Left(left.eax)));
        }
        _ => {}
    }
}
