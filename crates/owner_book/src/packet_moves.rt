//! What becomes of packets.

ghost use Rattle.std.specs.Prelude.{◌≡◌, ◌<◌, true, [], OnOk, OnErr, cond};
ghost use Rattle.call_log.specs.declared.entry.Entry.TheVariants as entries;
ghost use Rattle.owner_machine.specs.Machine.{has_case, after};
ghost use Rattle.owner_machine.specs.declared.rows.Place.TheVariants.{Done, Aborted};
ghost use Rattle.owner_machine.specs.declared.rows.Next.TheVariants.{Tail};
ghost use Rattle.owner_machine.specs.State.{at};
ghost use Rattle.owner_machine.specs.Packets.{out_of, aborts, enter_of, handed_one, behind_verdict, behind_complete};
ghost use Rattle.owner_rules.specs.State.{owner_of};

use crate::adapter_moves::{AdapterMove, move_adapter};
use nd_base::{AdapterNo, BindingNo, OutOfMemory, PacketNo};
use owner_machine::{Next, Packet, Place};
use owner_rows::is_miniport;
use owner_rules::{Ledger, has_verdict, is_ending};

/// A driver sends a packet.
pub(crate) fn send(
    ledger: &mut Ledger,
    driver: BindingNo,
    packet: PacketNo,
) -> Result<(), OutOfMemory>
    ensures ok { OnOk result (owner_of ledger.new ≡ after (owner_of ledger.old) (entries.Send driver packet [])) }
    ensures err { OnErr result (owner_of ledger.new ≡ owner_of ledger.old) }
{
    let adapter = ledger.adapter_of(driver.0);
    let place = if ledger.is_running(adapter) {
        Place::Queue
    } else {
        Place::Refused
    };
    ledger.packets.push(Packet {
        driver,
        adapter: AdapterNo(adapter),
        place,
        id: 0,
        hand: 0,
    })?;
    ledger.next = Next::Sent { packet };
    Ok(())
}

/// A packet gets a cancel id.
pub(crate) fn tag(ledger: &mut Ledger, packet: PacketNo, id: u32)
    ensures { owner_of ledger.new ≡ after (owner_of ledger.old) (entries.Tag packet id) }
{
    ledger.packets.tag(packet.0, id);
    ledger.next = Next::Tagged { packet };
}

fn enter_of(next: Next) -> u64
    ensures { result ≡ enter_of next }
{
    match next {
        Next::Handing { enter, .. } => enter,
        _ => 0,
    }
}

fn handed_one(next: Next) -> Next
    ensures { result ≡ handed_one next }
{
    match next {
        Next::Handing {
            adapter,
            enter,
            left,
        } => Next::Handing {
            adapter,
            enter,
            left: left.saturating_sub(1),
        },
        _ => Next::Free,
    }
}

/// A packet is handed to its miniport.
#[tactic(auto, using(crate::proofs::Admits::hand_in_slot))]
pub(crate) fn hand(ledger: &mut Ledger, packet: PacketNo)
    requires { has_case (owner_of ledger.old) (entries.Hand packet) ≡ true }
    ensures { owner_of ledger.new ≡ after (owner_of ledger.old) (entries.Hand packet) }
{
    ledger.packets.hand(packet.0, enter_of(ledger.next));
    ledger.next = handed_one(ledger.next);
}

/// What stands next behind a verdict on packet k, of so many.
fn behind_verdict(next: Next, k: u64, count: u64) -> Next
    requires { k < count }
    ensures { result ≡ behind_verdict next k }
{
    match next {
        Next::Left {
            adapter,
            handler,
            enter,
            ..
        } => Next::Left {
            adapter,
            handler,
            enter,
            from: k + 1,
        },
        _ => next,
    }
}

/// A packet goes back into the queue of its adapter.
#[tactic(auto, using(crate::proofs::Admits::requeue_in_slot, crate::proofs::Admits::requeue_within))]
pub(crate) fn requeue(ledger: &mut Ledger, packet: PacketNo)
    requires { has_case (owner_of ledger.old) (entries.Requeue packet) ≡ true }
    ensures { owner_of ledger.new ≡ after (owner_of ledger.old) (entries.Requeue packet) }
{
    let count = ledger.packets.len();
    let adapter = ledger.packet_adapter(packet.0);
    ledger.packets.set_place(packet.0, Place::Queue);
    move_adapter(&mut ledger.adapters, adapter, AdapterMove::HeldBack);
    ledger.next = behind_verdict(ledger.next, packet.0, count);
}

fn aborts(next: Next, p: &Packet) -> bool
    ensures { result ≡ aborts next p.now }
{
    match next {
        Next::Aborting { adapter } => is_miniport(p.place) && p.adapter.0 == adapter.0,
        _ => false,
    }
}

/// The place of a packet that is completed.
fn completed_place(next: Next, p: &Packet) -> Place
    ensures { result ≡ cond (aborts next p.now) Aborted Done }
{
    if aborts(next, p) {
        Place::Aborted
    } else {
        Place::Done
    }
}

/// What stands next behind the completion of a packet.
fn behind_complete(ledger: &Ledger, k: u64) -> Next
    ensures { result ≡ behind_complete (owner_of ledger.now) k }
{
    let Some(p) = ledger.packets.get(k) else {
        return Next::Free;
    };
    let judged = has_verdict(&ledger.next, k, p);
    let ending = is_ending(&ledger.next, p);
    if judged || ending {
        behind_verdict(ledger.next, k, ledger.packets.len())
    } else {
        Next::Free
    }
}

/// A packet is completed.
#[tactic(auto, using(crate::proofs::Admits::complete_in_slot))]
pub(crate) fn complete(ledger: &mut Ledger, packet: PacketNo)
    requires { has_case (owner_of ledger.old) (entries.Complete packet (record { 0 = 0 })) ≡ true }
    ensures { owner_of ledger.new ≡ after (owner_of ledger.old) (entries.Complete packet (record { 0 = 0 })) }
{
    let next = behind_complete(ledger, packet.0);
    let Some(p) = ledger.packets.get(packet.0) else {
        return;
    };
    let place = completed_place(ledger.next, p);
    ledger.packets.set_place(packet.0, place);
    ledger.next = next;
}

/// A packet of an adapter that was stopped ends.
#[tactic(auto, using(crate::proofs::Admits::out_in_slot))]
pub(crate) fn end_packet(ledger: &mut Ledger, adapter: AdapterNo, packet: PacketNo)
    requires next { ledger.old.next ≡ Tail adapter }
    requires out { at (out_of adapter.0) ledger.old.packets packet.0 ≡ true }
    ensures { owner_of ledger.new ≡ after (owner_of ledger.old) (entries.Complete packet (record { 0 = 0 })) }
{
    ledger.packets.set_place(packet.0, Place::Done);
    ledger.next = Next::Tail { adapter };
}

/// The late completion of an aborted packet.
#[tactic(auto, using(crate::proofs::Admits::late_in_slot))]
pub(crate) fn complete_late(ledger: &mut Ledger, packet: PacketNo)
    requires { has_case (owner_of ledger.old) (entries.Late packet) ≡ true }
    ensures { owner_of ledger.new ≡ after (owner_of ledger.old) (entries.Late packet) }
{
    ledger.packets.set_place(packet.0, Place::Done);
    ledger.next = Next::Free;
}
