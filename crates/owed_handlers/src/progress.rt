//! How far an adapter has come.

ghost use Rattle.std.specs.Prelude.{◌≡◌, ◌&&◌, ◌==◌, true, not, nat_le, slice_index_or, is_some};
ghost use Rattle.legal_run.specs.State.{no_progress, State};
ghost use Rattle.legal_run.specs.Owed.{succeeded, was_not_entered, due_timer};
ghost use Rattle.legal_run.specs.After.{with_world};
ghost use Rattle.miniport_state.specs.Views.{entrance_of};

use adapter_timers::due_timer;
use guest_world::World;
use miniport_state::{Adapters, Entrance};
use nd_base::AdapterNo;

/// An adapter's MiniportInitialize was entered.
pub(crate) fn is_initialized(adapters: &Adapters, a: AdapterNo) -> bool
    ensures { result ≡ (slice_index_or adapters.now.progress.items a.0 no_progress).initialized }
{
    match adapters.progress.get(usize::from(a.0)) {
        Some(progress) => progress.initialized,
        None => false,
    }
}

/// An adapter's MiniportEnableInterrupt is due.
pub(crate) fn enables(adapters: &Adapters, a: AdapterNo) -> bool
    ensures { result ≡ (slice_index_or adapters.now.progress.items a.0 no_progress).enables }
{
    match adapters.progress.get(usize::from(a.0)) {
        Some(progress) => progress.enables,
        None => false,
    }
}

/// The moment of an adapter's next MiniportCheckForHang has come.
pub(crate) fn check_has_come(adapters: &Adapters, world: &World, a: AdapterNo) -> bool
    ensures { result ≡ nat_le (slice_index_or adapters.now.progress.items a.0 no_progress).check world.now.clock.clock }
{
    let check = match adapters.progress.get(usize::from(a.0)) {
        Some(progress) => progress.check,
        None => 0,
    };
    check <= world.clock.now()
}

/// DriverEntry has left with success.
pub(crate) fn has_succeeded(adapters: &Adapters) -> bool
    ensures { result ≡ succeeded (entrance_of adapters.now.entrance) }
{
    match adapters.entrance {
        Entrance::Gone(eax) => eax == 0,
        Entrance::Unentered | Entrance::Inside => false,
    }
}

pub(crate) fn was_not_entered(adapters: &Adapters) -> bool
    ensures { result ≡ was_not_entered (entrance_of adapters.now.entrance) }
{
    matches!(adapters.entrance, Entrance::Unentered)
}

/// A timer of an adapter is due.
pub(crate) fn has_due_timer(world: &World, a: AdapterNo) -> bool
    ensures { (s : State) → result ≡ is_some (due_timer (with_world s world.now) a.0) }
{
    due_timer(world, a).is_some()
}
