//! What each kind of entry makes.

ghost use Rattle.std.specs.Prelude.{◌≡◌, true, false, OnOk, OnErr};
ghost use Rattle.call_log.specs.declared.entry.Entry.TheVariants as entries;
ghost use Rattle.owner_machine.specs.Machine.{has_case, after};
ghost use Rattle.owner_rules.specs.State.{owner_of};
ghost use Rattle.owner_book.specs.Admitting.{takes_memory};

use crate::adapter_moves::{AdapterMove, move_adapter, put_cancel, put_event};
use crate::driver_moves::set_binding;
use crate::handler_moves::{call, enter, leave, reply, stop};
use crate::loan_moves::{give_back, indicate, send_home};
use crate::packet_moves::{complete, complete_late, hand, requeue, send, tag};
use crate::request_moves::{answer, ask, end_request, hand_ask};
use call_log::Entry;
use nd_base::{AdapterNo, BindingNo, Bytes, OutOfMemory, Status};
use owner_machine::{Binding, Next};
use owner_rules::Ledger;
use std::alloc::Global;

/// A driver binds.
fn bind(ledger: &mut Ledger, alloc: Global, driver: BindingNo)
    ensures { owner_of ledger.new ≡ after (owner_of ledger.old) (entries.Bind driver (record { 0 = 0 })) }
{
    set_binding(&mut ledger.drivers, alloc, driver.0, Binding::Bound);
    ledger.next = Next::Free;
}

/// A driver unbinds.
fn unbind(ledger: &mut Ledger, alloc: Global, driver: BindingNo)
    ensures { owner_of ledger.new ≡ after (owner_of ledger.old) (entries.Unbind driver) }
{
    set_binding(&mut ledger.drivers, alloc, driver.0, Binding::HasBeen);
    ledger.next = Next::Free;
}

/// A driver cancels its packets of an id.
fn cancel(ledger: &mut Ledger, driver: BindingNo, id: u32) -> Result<(), OutOfMemory>
    ensures ok { OnOk result (owner_of ledger.new ≡ after (owner_of ledger.old) (entries.Cancel driver id)) }
    ensures err { OnErr result (owner_of ledger.new ≡ owner_of ledger.old) }
{
    let waits = ledger.cancel_waits(driver.0, id);
    let adapter = ledger.adapter_of(driver.0);
    put_cancel(&mut ledger.adapters, adapter, waits, id)?;
    ledger.next = Next::Cancelling { driver, id };
    Ok(())
}

/// A driver signals an event.
fn signal(
    ledger: &mut Ledger,
    alloc: Global,
    driver: BindingNo,
    number: u32,
    bytes: &Bytes,
    taken: bool,
) -> Result<(), OutOfMemory>
    ensures ok { OnOk result (owner_of ledger.new ≡ after (owner_of ledger.old) (entries.Event driver number bytes.now taken)) }
    ensures err { OnErr result (owner_of ledger.new ≡ owner_of ledger.old) }
{
    let adapter = ledger.adapter_of(driver.0);
    put_event(&mut ledger.adapters, alloc, adapter, taken, number, bytes)?;
    ledger.next = Next::Free;
    Ok(())
}

/// A reset of an adapter begins.
fn begin_reset(ledger: &mut Ledger, adapter: AdapterNo)
    ensures { owner_of ledger.new ≡ after (owner_of ledger.old) (entries.ResetBegin adapter) }
{
    move_adapter(&mut ledger.adapters, adapter.0, AdapterMove::ResetBegun);
    ledger.next = Next::Resetting { adapter };
}

/// A reset of an adapter ends.
fn end_reset(ledger: &mut Ledger, adapter: AdapterNo)
    ensures { owner_of ledger.new ≡ after (owner_of ledger.old) (entries.ResetEnd adapter (record { 0 = 0 })) }
{
    move_adapter(&mut ledger.adapters, adapter.0, AdapterMove::ResetEnded);
    ledger.next = Next::Aborting { adapter };
}

/// The kinds that take memory; the others change nothing here.
fn take_with_memory(ledger: &mut Ledger, alloc: Global, e: &Entry) -> Result<(), OutOfMemory>
    requires { takes_memory e.now ≡ true }
    ensures ok { OnOk result (owner_of ledger.new ≡ after (owner_of ledger.old) e.now) }
    ensures err { OnErr result (owner_of ledger.new ≡ owner_of ledger.old) }
{
    match e {
        Entry::Send { driver, packet, .. } => send(ledger, *driver, *packet),
        Entry::Cancel { driver, id } => cancel(ledger, *driver, *id),
        Entry::Event {
            driver,
            number,
            bytes,
            taken,
        } => signal(ledger, alloc, *driver, *number, bytes, *taken),
        Entry::Indicate {
            adapter,
            loan,
            holders,
            copied,
            ..
        } => indicate(ledger, *adapter, *loan, holders.as_slice(), *copied),
        Entry::Ask {
            driver,
            request,
            question,
        } => ask(ledger, alloc, *driver, *request, question),
        Entry::Answer {
            request,
            status,
            ..
        } => answer(ledger, alloc, *request, *status),
        Entry::Enter {
            adapter,
            context,
            handler,
            words,
            ..
        } => enter(ledger, *adapter, *context, *handler, words.as_slice()),
        _ => unreachable!(),
    }
}

/// The kinds that take none.
fn take_at_once(ledger: &mut Ledger, alloc: Global, e: &Entry)
    requires case { has_case (owner_of ledger.old) e.now ≡ true }
    requires at_once { takes_memory e.now ≡ false }
    ensures { owner_of ledger.new ≡ after (owner_of ledger.old) e.now }
{
    match e {
        Entry::Bind { driver, .. } => bind(ledger, alloc, *driver),
        Entry::Unbind { driver } => unbind(ledger, alloc, *driver),
        Entry::Tag { packet, id } => tag(ledger, *packet, *id),
        Entry::Hand { packet } => hand(ledger, *packet),
        Entry::Requeue { packet } => requeue(ledger, *packet),
        Entry::Complete { packet, .. } => complete(ledger, *packet),
        Entry::Late { packet } => complete_late(ledger, *packet),
        Entry::Return { driver, loan } => give_back(ledger, *driver, *loan),
        Entry::Back { loan, .. } => send_home(ledger, *loan),
        Entry::HandAsk { request } => hand_ask(ledger, *request),
        Entry::Answer { request, .. } => end_request(ledger, *request),
        Entry::ResetBegin { adapter } => begin_reset(ledger, *adapter),
        Entry::ResetEnd { adapter, .. } => end_reset(ledger, *adapter),
        Entry::Leave { context, eax } => leave(ledger, *context, *eax),
        Entry::Call {
            context,
            import,
            words,
        } => call(ledger, *context, *import, words.as_slice()),
        Entry::Reply { context, .. } => reply(ledger, *context),
        Entry::Stop { adapter, .. } => stop(ledger, *adapter),
        _ => ledger.next = Next::Free,
    }
}

/// Whether something is kept of an entry that takes memory.
fn takes_memory(e: &Entry) -> bool
    ensures { result ≡ takes_memory e.now }
{
    matches!(
        e,
        Entry::Send { .. }
            | Entry::Cancel { .. }
            | Entry::Event { .. }
            | Entry::Indicate { .. }
            | Entry::Ask { .. }
            | Entry::Answer {
                status: Status(0),
                ..
            }
            | Entry::Enter { .. }
    )
}

/// Moves the rows by an entry that breaks no rule.
pub(crate) fn take(ledger: &mut Ledger, alloc: Global, e: &Entry) -> Result<(), OutOfMemory>
    requires { has_case (owner_of ledger.old) e.now ≡ true }
    ensures ok { OnOk result (owner_of ledger.new ≡ after (owner_of ledger.old) e.now) }
    ensures err { OnErr result (owner_of ledger.new ≡ owner_of ledger.old) }
    ensures memory { OnErr result (takes_memory e.now ≡ true) }
{
    if takes_memory(e) {
        return take_with_memory(ledger, alloc, e);
    }
    take_at_once(ledger, alloc, e);
    Ok(())
}
