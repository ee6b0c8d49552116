//! What enters, leaves, calls and stops make.

ghost use Rattle.std.specs.Prelude.{◌≡◌, [], OnOk, OnErr, slice_get, get_or, None};
ghost use Rattle.log_fields.specs.declared.field_values.Cause.TheVariants.{Budget};
ghost use Rattle.call_log.specs.declared.entry.Entry.TheVariants as entries;
ghost use Rattle.owner_machine.specs.Machine.{after};
ghost use Rattle.owner_machine.specs.Handlers.{behind_enter, next_entered, behind_leave};
ghost use Rattle.owner_rules.specs.State.{owner_of};

use crate::adapter_moves::{
    AdapterMove, answer_adapters, are_stopped, call_adapters, enter_adapters, leave_adapters,
    move_adapter,
};
use crate::context_moves::{begin_call, end_call, enter_contexts, set_context, stop_contexts};
use call_log::Handler;
use nd_base::{AdapterNo, CtxNo, OutOfMemory};
use owner_machine::{Context, Next};
use owner_rules::Ledger;

/// What stands next behind the enter of an adapter's handler.
fn behind_enter(adapter: AdapterNo, handler: Handler, enter: u64, words: &[u32]) -> Next
    ensures { result ≡ behind_enter adapter handler enter words.now }
{
    match handler {
        Handler::Send => Next::Handing {
            adapter,
            enter,
            left: 1,
        },
        Handler::SendPackets => Next::Handing {
            adapter,
            enter,
            left: words.get(2).copied().unwrap_or(0),
        },
        Handler::ReturnPacket => Next::GoingHome { adapter },
        Handler::Query | Handler::Set => Next::HandingAsk { adapter, enter },
        _ => Next::Free,
    }
}

fn next_entered(entered: Option<AdapterNo>, handler: Handler, enter: u64, words: &[u32]) -> Next
    ensures { result ≡ next_entered entered handler enter words.now }
{
    match entered {
        Some(adapter) => behind_enter(adapter, handler, enter, words),
        None => Next::Free,
    }
}

/// A handler is entered in a context.
pub(crate) fn enter(
    ledger: &mut Ledger,
    adapter: Option<AdapterNo>,
    context: CtxNo,
    handler: Handler,
    words: &[u32],
) -> Result<(), OutOfMemory>
    ensures ok { OnOk result (owner_of ledger.new ≡ after (owner_of ledger.old) (entries.Enter adapter context handler words.now [])) }
    ensures err { OnErr result (owner_of ledger.new ≡ owner_of ledger.old) }
{
    let n = ledger.enters;
    let Some(enters) = n.checked_add(1) else {
        return Err(OutOfMemory);
    };
    let open = Context::Open {
        adapter,
        handler,
        enter: n,
        call: None,
    };
    enter_contexts(&mut ledger.contexts, adapter, handler, n);
    set_context(&mut ledger.contexts, context.0, open);
    enter_adapters(&mut ledger.adapters, adapter, handler);
    ledger.enters = enters;
    ledger.next = next_entered(adapter, handler, n, words);
    Ok(())
}

/// What stands next behind the leave of a context.
fn behind_leave(left: Option<Context>) -> Next
    ensures { result ≡ behind_leave left }
{
    match left {
        Some(
            Context::Open {
                adapter: Some(adapter),
                handler,
                enter,
                ..
            },
        ) => Next::Left {
            adapter,
            handler,
            enter,
            from: 0,
        },
        _ => Next::Free,
    }
}

/// The context of a number.
fn context_at(contexts: &[Context; 16], c: u8) -> Option<Context>
    ensures { result ≡ slice_get contexts.now c }
{
    contexts.get(c as usize).copied()
}

/// The handler of a context returns EAX.
pub(crate) fn leave(ledger: &mut Ledger, context: CtxNo, eax: u32)
    ensures { owner_of ledger.new ≡ after (owner_of ledger.old) (entries.Leave context eax) }
{
    let left = context_at(&ledger.contexts, context.0);
    set_context(&mut ledger.contexts, context.0, Context::Free);
    leave_adapters(&mut ledger.adapters, left, eax);
    ledger.next = behind_leave(left);
}

/// A context calls an import.
pub(crate) fn call(ledger: &mut Ledger, context: CtxNo, import: u8, words: &[u32])
    ensures { owner_of ledger.new ≡ after (owner_of ledger.old) (entries.Call context import words.now) }
{
    let caller = context_at(&ledger.contexts, context.0);
    begin_call(&mut ledger.contexts, context.0, import, words);
    call_adapters(&mut ledger.adapters, caller, import);
    ledger.next = Next::Free;
}

/// The call of a context is answered.
pub(crate) fn reply(ledger: &mut Ledger, context: CtxNo)
    ensures { owner_of ledger.new ≡ after (owner_of ledger.old) (entries.Reply context 0 []) }
{
    let caller = context_at(&ledger.contexts, context.0);
    end_call(&mut ledger.contexts, context.0);
    answer_adapters(&mut ledger.adapters, caller);
    ledger.next = Next::Free;
}

/// An adapter is stopped.
pub(crate) fn stop(ledger: &mut Ledger, adapter: AdapterNo)
    ensures { owner_of ledger.new ≡ after (owner_of ledger.old) (entries.Stop adapter Budget) }
{
    move_adapter(&mut ledger.adapters, adapter.0, AdapterMove::Stopped);
    let all = are_stopped(ledger.adapters.as_slice());
    stop_contexts(&mut ledger.contexts, adapter.0, all);
    ledger.next = Next::Tail { adapter };
}
