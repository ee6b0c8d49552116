//! Packets that a driver sends.

ghost use Rattle.std.specs.Prelude.{◌≡◌, ◌≤◌, ◌+◌, true, None, OnOk, count_by, length};
ghost use Rattle.std.specs.Bool.{OnFalse, OnTrue};
ghost use Rattle.call_log.specs.declared.entry.Entry.TheVariants as entries;
ghost use Rattle.owner_machine.specs.declared.rows.Next.TheVariants.{Sent};
ghost use Rattle.owner_machine.specs.Adapters.{may_cancel};
ghost use Rattle.owner_machine.specs.Packets.{may_send, slot_of};
ghost use Rattle.owner_book.specs.Stopping.{stop_room};
ghost use Rattle.legal_run.specs.State.{Inputs};
ghost use Rattle.run_stops.specs.Standing.{IsSettled, Settles, SettlesByOr};
ghost use Rattle.run_stops.specs.Stopping.{owner_of};
ghost use Rattle.run_commands.specs.Commands.{AbortsOne, HasRoom, IsBehind, IsCancelling, next_packet, queued};

use crate::moves::{status_due, write_cancel, write_send};
use legal_run::run_laws;
use nd_base::{BindingNo, Bytes, OutOfMemory, PacketNo, Status};
use owner_book::WhichPackets;
use run_moves::Running;
use run_stops::moves_add;
use std::alloc::Global;
use stop_rooms::rooms_stay;

/// NDIS_STATUS_REQUEST_ABORTED.
const REQUEST_ABORTED: Status = Status(0xC001_000C);

/// Completes a packet that was sent just now, where it is refused.
fn complete_refused(run: &mut Running, sent: PacketNo)
    ghost c: { Inputs }
    requires { IsBehind c (Sent sent) run.old }
    ensures { Settles c run.old run.new }
{
    moves_add();
    rooms_stay();
    run_laws();
    if let Some(status) = status_due(run.book.must()) {
        run.complete(sent, Status(status));
    }
}

/// A driver that is bound sends a packet; where its adapter does not run, the packet is completed so at
/// once.
///
/// # Errors
/// [`OutOfMemory`] where memory is wanted for the packet; nothing is written then.
pub fn send(
    run: &mut Running,
    alloc: Global,
    driver: BindingNo,
    bytes: Bytes,
) -> Result<(), OutOfMemory>
    ghost c: { Inputs }
    requires settled { IsSettled c run.old }
    requires may { may_send (owner_of c run.old) driver.0 (length (owner_of c run.old).packets) (length bytes) ≡ true }
    requires room { stop_room (owner_of c run.old) + 3 ≤ run.old.log.spare }
    ensures { SettlesByOr c (entries.Send driver (next_packet (owner_of c run.old)) bytes) run.old run.new result }
{
    moves_add();
    rooms_stay();
    run_laws();
    let packet = PacketNo(run.book.packets());
    write_send(run, alloc, driver, packet, bytes)?;
    complete_refused(run, packet);
    Ok(())
}

/// Completes the next packet that a cancel ends, if there is one; whether there was.
fn abort_one(run: &mut Running, driver: BindingNo, id: u32) -> bool
    ghost c: { Inputs }
    requires { IsCancelling c driver id run.old }
    ensures one { OnTrue result (AbortsOne c driver id run.old run.new) }
    ensures none { OnFalse result (queued (owner_of c run.old) driver id ≡ None) }
    ensures stays { OnFalse result (run.new ≡ run.old) }
{
    moves_add();
    rooms_stay();
    run_laws();
    if let Some(k) = run
        .book
        .first_packet(WhichPackets::QueuedWith(driver.0, id))
    {
        run.complete(PacketNo(k), REQUEST_ABORTED);
        return true;
    }
    false
}

/// Completes every packet that a cancel ends, in rising order.
fn abort_queued(run: &mut Running, driver: BindingNo, id: u32)
    ghost c: { Inputs }
    requires { IsCancelling c driver id run.old }
    ensures { Settles c run.old run.new }
{
    'aborts: while abort_one(run, driver, id) {}
}

/// Room for a cancel and all that it ends, beside the stops of all adapters.
fn reserve_cancel(run: &mut Running, driver: BindingNo) -> Result<(), OutOfMemory>
    ensures keeps { HasRoom run.old run.new }
    ensures room { OnOk result (stop_room run.old.book + count_by (slot_of driver.0) run.old.book.packets + 1 ≤ run.new.log.spare) }
{
    match (run.book.stop_room() + 1).checked_add(run.book.slots(driver)) {
        Some(room) => run.log.reserve(room),
        None => Err(OutOfMemory),
    }
}

/// A driver cancels its packets of an id, where there is room for all that it ends.
fn cancel_all(run: &mut Running, driver: BindingNo, id: u32) -> Result<(), OutOfMemory>
    ghost c: { Inputs }
    requires settled { IsSettled c run.old }
    requires may { may_cancel (owner_of c run.old) driver.0 id ≡ true }
    requires room { stop_room (owner_of c run.old) + count_by (slot_of driver.0) (owner_of c run.old).packets + 1 ≤ run.old.log.spare }
    ensures { SettlesByOr c (entries.Cancel driver id) run.old run.new result }
{
    moves_add();
    rooms_stay();
    run_laws();
    write_cancel(run, driver, id)?;
    abort_queued(run, driver, id);
    Ok(())
}

/// A driver cancels its packets of an id: those that are queued are completed at once.
///
/// # Errors
/// [`OutOfMemory`] where memory is wanted for the cancel or the room of its entries; nothing is written
/// then.
pub fn cancel(run: &mut Running, driver: BindingNo, id: u32) -> Result<(), OutOfMemory>
    ghost c: { Inputs }
    requires settled { IsSettled c run.old }
    requires may { may_cancel (owner_of c run.old) driver.0 id ≡ true }
    ensures { SettlesByOr c (entries.Cancel driver id) run.old run.new result }
{
    reserve_cancel(run, driver)?;
    cancel_all(run, driver, id)
}
