//! What is owed to an adapter that lives, by handler.

ghost use Rattle.std.specs.Prelude.{◌≡◌, ◌&&◌, not, nat_le, is_some, slice_index_or};
ghost use Rattle.log_fields.specs.declared.field_values.Handler.TheVariants as handler;
ghost use Rattle.legal_run.specs.State.{State, has_handler, no_progress};
ghost use Rattle.legal_run.specs.Owed.{owed_row, shuts_down, succeeded};
ghost use Rattle.legal_run.specs.After.{with_world};
ghost use Rattle.miniport_state.specs.Views.{entrance_of};
ghost use Rattle.owner_book.specs.Standings.{IsStanding};
ghost use Rattle.owed_handlers.specs.Kept.{inputs_of, state_of};

use crate::lines::{enters_isr, line_asks};
use crate::progress::{check_has_come, enables, has_due_timer, has_succeeded, is_initialized};
use crate::standings::{asks, is_running, is_serving, is_starting};
use crate::syncs::sync_caller;
use guest_world::World;
use log_fields::Handler;
use miniport_state::{Adapters, has_handler};
use nd_base::AdapterNo;
use owner_book::{Book, Standing};

/// MiniportShutdown takes the place of MiniportHalt.
fn shuts_down(adapters: &Adapters, book: &Book, world: &World) -> bool
    ensures { result ≡ shuts_down (inputs_of adapters.now) (state_of adapters.now book.now world.now) }
{
    adapters.shuts_down && has_handler(world, Handler::Shutdown)
}

/// The miniport has a MiniportCheckForHang, and an adapter's next moment for it has come.
fn is_hang_check_due(adapters: &Adapters, world: &World, a: AdapterNo) -> bool
    ensures { (s : State) → result ≡ (has_handler (with_world s world.now) handler.CheckForHang
        && nat_le (slice_index_or adapters.now.progress.items a.0 no_progress).check world.now.clock.clock) }
{
    let has = has_handler(world, Handler::CheckForHang);
    let come = check_has_come(adapters, world, a);
    has && come
}

/// DriverEntry has succeeded and registered a miniport, and an adapter's MiniportInitialize was not
/// entered.
fn is_fresh(adapters: &Adapters, world: &World, a: AdapterNo) -> bool
    ensures { result ≡ (succeeded (entrance_of adapters.now.entrance) && (is_some world.now.miniport && not (slice_index_or adapters.now.progress.items a.0 no_progress).initialized)) }
{
    let succeeded = has_succeeded(adapters);
    let registered = world.miniport.is_some();
    let initialized = is_initialized(adapters, a);
    succeeded && (registered && !initialized)
}

/// A handler is owed to an adapter.
pub(crate) fn owed_row(
    adapters: &Adapters,
    book: &Book,
    world: &World,
    a: AdapterNo,
    standing: &Standing,
    h: Handler,
) -> bool
    requires { IsStanding book.now a.0 standing.now }
    ensures { result ≡ owed_row (inputs_of adapters.now) (state_of adapters.now book.now world.now) a.0 h }
{
    let running = is_running(standing.phase);
    let serving = is_serving(standing.phase);
    match h {
        Handler::Sync => sync_caller(adapters, book, a).is_some(),
        Handler::Isr => line_asks(book, world, a) && enters_isr(world, a),
        Handler::DisableInterrupt => line_asks(book, world, a) && !enters_isr(world, a),
        Handler::HandleInterrupt => serving && world.clock.queued(a),
        Handler::EnableInterrupt => serving && enables(adapters, a),
        Handler::Timer => serving && has_due_timer(world, a),
        Handler::ReturnPacket => serving && standing.home,
        Handler::Reset => running && standing.reset,
        Handler::CancelSend => running && standing.cancel,
        Handler::Query => running && asks(false, standing.request),
        Handler::Set => running && asks(true, standing.request),
        Handler::Send => running && (standing.send && !has_handler(world, Handler::SendPackets)),
        Handler::SendPackets => running
            && (standing.send && has_handler(world, Handler::SendPackets)),
        Handler::CheckForHang => running && is_hang_check_due(adapters, world, a),
        Handler::PnpEvent => running && standing.event,
        Handler::Initialize => is_starting(standing.phase) && is_fresh(adapters, world, a),
        Handler::Shutdown => shuts_down(adapters, book, world),
        Handler::Halt => !shuts_down(adapters, book, world),
        Handler::DriverEntry | Handler::TransferData => false,
    }
}
