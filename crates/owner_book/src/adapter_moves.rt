//! What becomes of adapters.

ghost use Rattle.std.specs.Prelude.{◌≡◌, OnOk, OnErr, vec_len};
ghost use Rattle.owner_machine.specs.State.{change};
ghost use Rattle.owner_machine.specs.Adapters.{with_cancel, with_event, all_stopped};
ghost use Rattle.owner_machine.specs.Handlers.{adapter_entered, adapters_entered, initialized, off_unless_stopped, entry_left, adapter_left, adapters_left, adapters_called, adapters_answered, sets_attributes};
ghost use Rattle.owner_book.specs.AdapterMoves.{moved};

use call_log::Handler;
use nd_base::{AdapterNo, Bytes, OutOfMemory, Phase};
use owner_machine::{Adapter, Context, Event, OpenCall};
use std::alloc::Global;

/// NdisMSetAttributesEx's number among the imports.
const SET_ATTRIBUTES: u8 = 6;

/// NdisMSendComplete's number among the imports.
const SEND_COMPLETE: u8 = 39;

/// NdisMSendResourcesAvailable's number among the imports.
const SEND_RESOURCES_AVAILABLE: u8 = 40;

/// NDIS_STATUS_PENDING.
const PENDING: u32 = 0x103;

/// NDIS_ATTRIBUTE_DESERIALIZE.
const DESERIALIZE: u32 = 0x20;

/// What becomes of an adapter.
#[derive(Clone, Copy)]
pub(crate) enum AdapterMove {
    /// A packet was given back.
    HeldBack,
    ResetBegun,
    ResetEnded,
    Stopped,
    /// A handler is entered.
    Entered(Handler),
    /// A handler leaves with EAX.
    Left(Handler, u32),
    /// An import is called.
    Called(u8),
    /// A call is answered that sets attributes, or does not, with these flags.
    Answered(bool, u32),
}

/// The phase behind MiniportInitialize.
fn initialized(status: u32, phase: Phase) -> Phase
    ensures { result ≡ initialized status phase }
{
    if status == 0 {
        Phase::Running
    } else if status == PENDING {
        phase
    } else {
        Phase::Off
    }
}

fn enter_row(row: &mut Adapter, handler: Handler)
    ensures { row.new ≡ adapter_entered handler row.old }
{
    match handler {
        Handler::Halt | Handler::Shutdown => row.phase = Phase::Halting,
        Handler::CancelSend => row.cancels.pop(),
        Handler::PnpEvent => row.events.pop(),
        _ => {}
    }
}

fn leave_row(row: &mut Adapter, handler: Handler, eax: u32)
    ensures { row.new ≡ adapter_left handler eax row.old }
{
    match handler {
        Handler::Initialize => row.phase = initialized(eax, row.phase),
        Handler::Halt | Handler::Shutdown => {
            row.phase = Phase::Off;
            row.owes_reset = false;
        }
        Handler::CheckForHang => row.owes_reset = row.owes_reset || eax % 256 != 0,
        _ => {}
    }
}

fn stop_row(row: &mut Adapter)
    ensures { row.new ≡ moved AdapterMove.Stopped row.old }
{
    row.phase = Phase::Stopped;
    row.held_back = false;
    row.owes_reset = false;
    row.cancels.clear();
    row.events.clear();
}

fn call_row(row: &mut Adapter, import: u8)
    ensures { row.new ≡ moved (AdapterMove.Called import) row.old }
{
    let has_resources = import == SEND_COMPLETE || import == SEND_RESOURCES_AVAILABLE;
    row.held_back = row.held_back && !has_resources;
}

fn answer_row(row: &mut Adapter, sets: bool, flags: u32)
    ensures { row.new ≡ moved (AdapterMove.Answered sets flags) row.old }
{
    if sets {
        row.deserialized = (flags / DESERIALIZE) % 2 == 1;
    }
}

fn move_row(row: &mut Adapter, m: AdapterMove)
    ensures { row.new ≡ moved m row.old }
{
    match m {
        AdapterMove::HeldBack => row.held_back = true,
        AdapterMove::ResetBegun => {
            row.phase = Phase::Resetting;
            row.owes_reset = false;
        }
        AdapterMove::ResetEnded => row.phase = Phase::Running,
        AdapterMove::Stopped => stop_row(row),
        AdapterMove::Entered(handler) => enter_row(row, handler),
        AdapterMove::Left(handler, eax) => leave_row(row, handler, eax),
        AdapterMove::Called(import) => call_row(row, import),
        AdapterMove::Answered(sets, flags) => answer_row(row, sets, flags),
    }
}

/// Something becomes of the adapter of a number, if there is one.
#[tactic(auto, using(owner_rows::specs::Changes::written_at, owner_rows::specs::Changes::change_past))]
pub(crate) fn move_adapter(adapters: &mut Vec<Adapter>, a: u8, m: AdapterMove)
    ensures moved { adapters.new.items ≡ change (moved m) adapters.old.items a }
    ensures len { vec_len adapters.new ≡ vec_len adapters.old }
{
    if (a as usize) < adapters.len() {
        let row = &mut adapters[a as usize];
        move_row(row, m);
    }
}

fn cancel_row(row: &mut Adapter, waits: bool, id: u32) -> Result<(), OutOfMemory>
    ensures ok { OnOk result (row.new ≡ with_cancel waits id row.old) }
    ensures err { OnErr result (row.new ≡ row.old) }
{
    if waits {
        row.cancels.push(id)?;
    }
    Ok(())
}

/// A cancel id waits for its handler, where it does.
#[tactic(auto, using(owner_rows::specs::Changes::written_at, owner_rows::specs::Changes::change_past, owner_rows::specs::Changes::written_back))]
pub(crate) fn put_cancel(
    adapters: &mut Vec<Adapter>,
    a: u8,
    waits: bool,
    id: u32,
) -> Result<(), OutOfMemory>
    ensures ok { OnOk result (adapters.new.items ≡ change (with_cancel waits id) adapters.old.items a) }
    ensures err { OnErr result (adapters.new.items ≡ adapters.old.items) }
    ensures len { vec_len adapters.new ≡ vec_len adapters.old }
{
    if (a as usize) < adapters.len() {
        let row = &mut adapters[a as usize];
        cancel_row(row, waits, id)?;
    }
    Ok(())
}

fn event_row(
    row: &mut Adapter,
    alloc: Global,
    taken: bool,
    number: u32,
    bytes: &Bytes,
) -> Result<(), OutOfMemory>
    ensures ok { OnOk result (row.new ≡ with_event taken number bytes.now row.old) }
    ensures err { OnErr result (row.new ≡ row.old) }
{
    if taken {
        let bytes = bytes.copied(alloc)?;
        row.events.push(Event { number, bytes })?;
    }
    Ok(())
}

/// An event waits for its handler, where it is taken.
#[tactic(auto, using(owner_rows::specs::Changes::written_at, owner_rows::specs::Changes::change_past, owner_rows::specs::Changes::written_back))]
pub(crate) fn put_event(
    adapters: &mut Vec<Adapter>,
    alloc: Global,
    a: u8,
    taken: bool,
    number: u32,
    bytes: &Bytes,
) -> Result<(), OutOfMemory>
    ensures ok { OnOk result (adapters.new.items ≡ change (with_event taken number bytes.now) adapters.old.items a) }
    ensures err { OnErr result (adapters.new.items ≡ adapters.old.items) }
    ensures len { vec_len adapters.new ≡ vec_len adapters.old }
{
    if (a as usize) < adapters.len() {
        let row = &mut adapters[a as usize];
        event_row(row, alloc, taken, number, bytes)?;
    }
    Ok(())
}

/// Whether every adapter is Stopped.
pub(crate) fn are_stopped(adapters: &[Adapter]) -> bool
    ensures { result ≡ all_stopped adapters.now }
{
    adapters
        .iter()
        .all(|row| matches!(row.phase, Phase::Stopped))
}

fn off_unless_stopped(phase: Phase) -> Phase
    ensures { result ≡ off_unless_stopped phase }
{
    match phase {
        Phase::Stopped => Phase::Stopped,
        _ => Phase::Off,
    }
}

/// DriverEntry failed: every adapter is Off that is not Stopped.
#[tactic(auto, using(crate::proofs::Contexts::swept_put))]
fn turn_off(adapters: &mut Vec<Adapter>)
    ensures off { adapters.new.items ≡ entry_left 1 adapters.old.items }
    ensures len { vec_len adapters.new ≡ vec_len adapters.old }
{
    for i in 0..adapters.len() {
        let row = &mut adapters[i];
        row.phase = off_unless_stopped(row.phase);
    }
}

/// The adapters behind the enter of a handler.
pub(crate) fn enter_adapters(
    adapters: &mut Vec<Adapter>,
    entered: Option<AdapterNo>,
    handler: Handler,
)
    ensures moved { adapters.new.items ≡ adapters_entered adapters.old.items entered handler }
    ensures len { vec_len adapters.new ≡ vec_len adapters.old }
{
    if let Some(adapter) = entered {
        move_adapter(adapters, adapter.0, AdapterMove::Entered(handler));
    }
}

/// The adapters behind the leave of DriverEntry.
fn leave_entry(adapters: &mut Vec<Adapter>, eax: u32)
    ensures moved { adapters.new.items ≡ entry_left eax adapters.old.items }
    ensures len { vec_len adapters.new ≡ vec_len adapters.old }
{
    if eax != 0 {
        turn_off(adapters);
    }
}

/// The adapters behind the leave of a context.
pub(crate) fn leave_adapters(adapters: &mut Vec<Adapter>, left: Option<Context>, eax: u32)
    ensures moved { adapters.new.items ≡ adapters_left adapters.old.items left eax }
    ensures len { vec_len adapters.new ≡ vec_len adapters.old }
{
    match left {
        Some(
            Context::Open {
                adapter: Some(adapter),
                handler,
                ..
            },
        ) => move_adapter(adapters, adapter.0, AdapterMove::Left(handler, eax)),
        Some(Context::Open { adapter: None, .. }) => leave_entry(adapters, eax),
        _ => {}
    }
}

/// The adapters behind the call of an import.
pub(crate) fn call_adapters(adapters: &mut Vec<Adapter>, caller: Option<Context>, import: u8)
    ensures moved { adapters.new.items ≡ adapters_called adapters.old.items caller import }
    ensures len { vec_len adapters.new ≡ vec_len adapters.old }
{
    if let Some(
        Context::Open {
            adapter: Some(adapter),
            ..
        },
    ) = caller
    {
        move_adapter(adapters, adapter.0, AdapterMove::Called(import));
    }
}

/// Whether a call sets attributes.
fn sets_attributes(handler: Handler, call: OpenCall) -> bool
    ensures { result ≡ sets_attributes handler call }
{
    matches!(handler, Handler::Initialize) && call.import == SET_ATTRIBUTES
}

/// The adapters behind the answer to a context's call.
pub(crate) fn answer_adapters(adapters: &mut Vec<Adapter>, caller: Option<Context>)
    ensures moved { adapters.new.items ≡ adapters_answered adapters.old.items caller }
    ensures len { vec_len adapters.new ≡ vec_len adapters.old }
{
    if let Some(
        Context::Open {
            adapter: Some(adapter),
            handler,
            call: Some(call),
            ..
        },
    ) = caller
    {
        let sets = sets_attributes(handler, call);
        move_adapter(adapters, adapter.0, AdapterMove::Answered(sets, call.flags));
    }
}
