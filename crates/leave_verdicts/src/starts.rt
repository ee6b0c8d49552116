//! MiniportInitialize and DriverEntry.

ghost use Rattle.std.specs.Prelude.{◌≡◌, ◌<◌, [], None, length};
ghost use Rattle.log_fields.specs.declared.field_values.Handler.TheVariants as handler;
ghost use Rattle.legal_run.specs.State.{State};
ghost use Rattle.legal_run.specs.Calls.{drawn, drawn_from, has_attributes};
ghost use Rattle.miniport_state.specs.Seen.{Point};
ghost use Rattle.leave_verdicts.specs.Judged.{drawn_as};

use crate::judgement::{Judgement, breaks, nothing};
use crate::statuses::{PENDING, SUCCESS};
use guest_world::World;
use nd_base::AdapterNo;
use std::alloc::Global;

/// The rule against PENDING from what must answer at once.
const PENDING_RULE: u8 = 10;

/// The rule against what succeeds without what it must have set.
const UNREADY_RULE: u8 = 14;

/// Whether an adapter's attributes are set.
fn has_attributes(world: &World, a: AdapterNo) -> bool
    ghost s: { State }
    requires world { world.now ≡ s.world }
    requires number { a.0 < 4 }
    ensures { result ≡ has_attributes s a.0 }
{
    match &world.adapters[usize::from(a.0)] {
        Some(adapter) => adapter.attributes.is_some(),
        None => false,
    }
}

/// MiniportInitialize answers at once, and succeeds only where it has set attributes.
pub(crate) fn initialize_verdict(alloc: Global, world: &World, a: AdapterNo, eax: u32) -> Judgement
    ghost s: { State }
    requires world { world.now ≡ s.world }
    requires number { a.0 < 4 }
    ensures { drawn_as result ≡ drawn_from s a.0 eax [] handler.Initialize }
{
    if eax == PENDING {
        return breaks(PENDING_RULE);
    }
    if eax == SUCCESS && !has_attributes(world, a) {
        return breaks(UNREADY_RULE);
    }
    nothing(alloc)
}

/// DriverEntry succeeds only where it has registered a miniport, or where there is no adapter for it.
pub(crate) fn entry_verdict(alloc: Global, world: &World, adapters: usize, eax: u32) -> Judgement
    ghost o: { Point }
    requires world { world.now ≡ o.state.world }
    requires count { adapters ≡ length o.inputs.adapters }
    ensures { drawn_as result ≡ drawn o.inputs o.state None eax [] handler.DriverEntry }
{
    if eax == SUCCESS && world.miniport.is_none() && adapters != 0 {
        return breaks(UNREADY_RULE);
    }
    nothing(alloc)
}
