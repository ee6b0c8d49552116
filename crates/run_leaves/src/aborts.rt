//! Packets that the end of a reset aborts.

ghost use Rattle.std.specs.Prelude.{◌≡◌, [], None};
ghost use Rattle.std.specs.Bool.{OnTrue, OnFalse};
ghost use Rattle.owner_machine.specs.Must.{owner_must};
ghost use Rattle.legal_run.specs.State.{Inputs};
ghost use Rattle.run_stops.specs.Stopping.{owner_of};
ghost use Rattle.run_leaves.specs.Leaving.{AbortsOne, IsAborting, WritesOn};

use nd_base::{AdapterNo, PacketNo, Status};
use owner_rows::WhichPackets;
use run_duties::each_duty_is_served;
use run_moves::Running;
use run_stops::moves_add;

/// NDIS_STATUS_REQUEST_ABORTED.
const REQUEST_ABORTED: Status = Status(0xC001_000C);

/// Aborts the first packet that the miniport of an adapter holds; whether there was any.
fn abort_one(run: &mut Running, a: AdapterNo) -> bool
    ghost c: { Inputs }
    requires { IsAborting c a run.old }
    ensures one { OnTrue result (AbortsOne c a run.old run.new) }
    ensures none { OnFalse result (owner_must (owner_of c run.old) ≡ None) }
    ensures stays { OnFalse result (run.new ≡ run.old) }
{
    each_duty_is_served();
    moves_add();
    if let Some(k) = run.book.first_packet(WhichPackets::HeldOf(a.0)) {
        run.complete(PacketNo(k), REQUEST_ABORTED);
        return true;
    }
    false
}

/// Aborts every packet that the miniport of an adapter holds.
pub(crate) fn abort_held(run: &mut Running, a: AdapterNo)
    ghost c: { Inputs }
    requires { IsAborting c a run.old }
    ensures { WritesOn c [] run.old run.new }
{
    'aborts: while abort_one(run, a) {}
}
