//! What becomes of contexts.

ghost use Rattle.std.specs.Prelude.{◌≡◌, ◌<◌, IfSome, position, slice_set};
ghost use Rattle.owner_machine.specs.State.{change};
ghost use Rattle.owner_machine.specs.Contexts.{wants_transfer, with_transfer, transfer_begun, called, calling, answered_call};
ghost use Rattle.owner_machine.specs.Adapters.{contexts_stopped};
ghost use Rattle.owner_machine.specs.Handlers.{contexts_entered};
ghost use Rattle.owner_book.specs.StoppedContexts.{context_stopped};

use call_log::Handler;
use nd_base::AdapterNo;
use owner_machine::{Context, OpenCall};
use owner_rules::{Group, runs, wants_transfer};

/// Puts a context at its number, if there is such a one.
pub(crate) fn set_context(contexts: &mut [Context; 16], c: u8, context: Context)
    ensures { contexts.new ≡ slice_set contexts.old c context }
{
    if (c as usize) < contexts.len() {
        contexts[c as usize] = context;
    }
}

/// The open call of an import with these argument words.
fn called(import: u8, words: &[u32]) -> OpenCall
    ensures { result ≡ called import words.now }
{
    OpenCall {
        import,
        flags: words.get(3).copied().unwrap_or(0),
        transfer: None,
    }
}

/// A context with its handler's call of an import.
fn calling(context: Context, import: u8, words: &[u32]) -> Context
    ensures { result ≡ calling import words.now context }
{
    match context {
        Context::Free => Context::Free,
        Context::Open {
            adapter,
            handler,
            enter,
            ..
        } => Context::Open {
            adapter,
            handler,
            enter,
            call: Some(called(import, words)),
        },
    }
}

/// A context whose call is answered.
fn answered(context: Context) -> Context
    ensures { result ≡ answered_call context }
{
    match context {
        Context::Free => Context::Free,
        Context::Open {
            adapter,
            handler,
            enter,
            ..
        } => Context::Open {
            adapter,
            handler,
            enter,
            call: None,
        },
    }
}

/// The context of a number calls an import.
#[tactic(auto, using(owner_rows::specs::Changes::change_past))]
pub(crate) fn begin_call(contexts: &mut [Context; 16], c: u8, import: u8, words: &[u32])
    ensures { contexts.new ≡ change (calling import words.now) contexts.old c }
{
    if (c as usize) < contexts.len() {
        contexts[c as usize] = calling(contexts[c as usize], import, words);
    }
}

/// The call of the context of a number is answered.
#[tactic(auto, using(owner_rows::specs::Changes::change_past))]
pub(crate) fn end_call(contexts: &mut [Context; 16], c: u8)
    ensures { contexts.new ≡ change answered_call contexts.old c }
{
    if (c as usize) < contexts.len() {
        contexts[c as usize] = answered(contexts[c as usize]);
    }
}

/// A context whose call waits for the transfer of that enter.
fn with_transfer(context: Context, n: u64) -> Context
    ensures { result ≡ with_transfer n context }
{
    match context {
        Context::Open {
            adapter,
            handler,
            enter,
            call: Some(call),
        } => Context::Open {
            adapter,
            handler,
            enter,
            call: Some(OpenCall {
                transfer: Some(n),
                ..call
            }),
        },
        _ => context,
    }
}

/// The lowest context that calls with a lookahead for the adapter, and has no transfer yet.
fn wanting(contexts: &[Context; 16], a: u8) -> Option<usize>
    ensures value { result ≡ position (wants_transfer a) contexts.now }
    ensures bound { IfSome result (λ c. c < 16) }
{
    contexts.iter().position(|x| wants_transfer(x, a))
}

/// The lowest call of the adapter that wants a transfer waits for that of this enter.
fn begin_transfer(contexts: &mut [Context; 16], a: u8, n: u64)
    ensures { contexts.new ≡ transfer_begun a n contexts.old }
{
    if let Some(c) = wanting(contexts, a) {
        contexts[c] = with_transfer(contexts[c], n);
    }
}

/// The contexts in front of the enter of a handler.
pub(crate) fn enter_contexts(
    contexts: &mut [Context; 16],
    entered: Option<AdapterNo>,
    handler: Handler,
    n: u64,
)
    ensures { contexts.new ≡ contexts_entered entered handler n contexts.old }
{
    if let (Some(adapter), Handler::TransferData) = (entered, handler) {
        begin_transfer(contexts, adapter.0, n);
    }
}

/// A context where an adapter stops; with the last one that of DriverEntry goes too.
fn stopped(context: Context, a: u8, all: bool) -> Context
    ensures { result ≡ context_stopped a all context }
{
    let own = runs(&context, Group::Any, a);
    let entry = matches!(context, Context::Open { adapter: None, .. });
    if own || all && entry {
        Context::Free
    } else {
        context
    }
}

/// The contexts behind the stop of an adapter.
#[tactic(auto, using(crate::proofs::Contexts::swept_stops))]
pub(crate) fn stop_contexts(contexts: &mut [Context; 16], a: u8, all: bool)
    ensures { contexts.new ≡ contexts_stopped contexts.old a all }
{
    for c in 0..contexts.len() {
        contexts[c] = stopped(contexts[c], a, all);
    }
}
