//! Contexts: what they run and call, and which handlers may be open side by side.
//!
//! (DDK: Serialized and Deserialized Drivers.)

ghost use Rattle.std.specs.Prelude.{◌≡◌, ◌==◌, not, count_by};
ghost use Rattle.owner_machine.specs.State.{at};
ghost use Rattle.owner_machine.specs.Contexts.{is_free, runs, is_at_work, is_calling, calls, in_call, none_runs, wants_transfer, transfers, has_left, may_be_answered, in_brackets};
ghost use Rattle.owner_rules.specs.State.{owner_of};
ghost use Rattle.owner_rules.specs.Groups.{in_group};

use crate::groups::{
    Group, is_dpc, is_exclusive, is_hang_check, is_interrupt, is_serial, is_transfer,
};
use crate::ledger::Ledger;
use crate::logic::implies;
use call_log::Handler;
use owner_machine::Context;

/// NdisMEthIndicateReceive's number among the imports.
pub(crate) const LOOKAHEAD_INDICATE: u8 = 47;

pub(crate) fn is_free(context: &Context) -> bool
    ensures { result ≡ is_free context.now }
{
    matches!(context, Context::Free)
}

/// Whether a context runs such a handler of the adapter.
pub fn runs(context: &Context, group: Group, a: u8) -> bool
    ensures { result ≡ runs (in_group group) a context.now }
{
    match context {
        Context::Open {
            adapter: Some(adapter),
            handler,
            ..
        } => group.has(*handler) && adapter.0 == a,
        _ => false,
    }
}

fn calls(context: &Context, a: u8, import: u8) -> bool
    ensures { result ≡ calls a import context.now }
{
    match context {
        Context::Open {
            adapter: Some(adapter),
            call: Some(call),
            ..
        } => adapter.0 == a && call.import == import,
        _ => false,
    }
}

/// Whether a context calls with a lookahead for the adapter, and no transfer was begun for it.
pub fn wants_transfer(context: &Context, a: u8) -> bool
    ensures { result ≡ wants_transfer a context.now }
{
    match context {
        Context::Open {
            adapter: Some(adapter),
            call: Some(call),
            ..
        } => adapter.0 == a && (call.import == LOOKAHEAD_INDICATE && call.transfer.is_none()),
        _ => false,
    }
}

fn transfers(context: &Context, n: u64) -> bool
    ensures { result ≡ transfers n context.now }
{
    match context {
        Context::Open { handler, enter, .. } => is_transfer(*handler) && *enter == n,
        Context::Free => false,
    }
}

impl Ledger {
    /// Whether a call of that import is open for the adapter.
    pub fn in_call(&self, a: u8, import: u8) -> bool
        ensures { result ≡ in_call (owner_of self.now) a import }
    {
        self.contexts
            .iter()
            .filter(|context| calls(context, a, import))
            .count()
            != 0
    }

    /// Whether no context runs such a handler of the adapter.
    pub fn none_runs(&self, group: Group, a: u8) -> bool
        ensures { result ≡ none_runs (owner_of self.now) (in_group group) a }
    {
        self.contexts
            .iter()
            .filter(|context| runs(context, group, a))
            .count()
            == 0
    }

    /// Whether some context is free.
    pub fn has_free_context(&self) -> bool
        ensures { result ≡ not (count_by is_free self.now.contexts == 0) }
    {
        self.contexts.iter().filter(|x| is_free(x)).count() != 0
    }

    /// Whether some call of the adapter with a lookahead wants a transfer.
    fn is_transfer_wanted(&self, a: u8) -> bool
        ensures { result ≡ not (count_by (wants_transfer a) self.now.contexts == 0) }
    {
        self.contexts
            .iter()
            .filter(|context| wants_transfer(context, a))
            .count()
            != 0
    }

    /// Whether no context runs the transfer of that enter.
    fn has_no_transfer(&self, n: u64) -> bool
        ensures { result ≡ (count_by (transfers n) self.now.contexts == 0) }
    {
        self.contexts
            .iter()
            .filter(|context| transfers(context, n))
            .count()
            == 0
    }

    /// Whether the transfer that a call waits for, if any, has left.
    fn has_left(&self, transfer: Option<u64>) -> bool
        ensures { result ≡ has_left self.now.contexts transfer }
    {
        match transfer {
            None => true,
            Some(n) => self.has_no_transfer(n),
        }
    }

    pub(crate) fn is_context_free(&self, c: u8) -> bool
        ensures { result ≡ at is_free self.now.contexts c }
    {
        match self.contexts.get(c as usize) {
            Some(context) => is_free(context),
            None => false,
        }
    }

    /// Whether the context's handler is open, and in no call.
    pub(crate) fn is_at_work(&self, c: u8) -> bool
        ensures { result ≡ at is_at_work self.now.contexts c }
    {
        match self.contexts.get(c as usize) {
            Some(Context::Open { call: None, .. }) => true,
            _ => false,
        }
    }

    /// Whether the context has a call open.
    pub(crate) fn is_calling(&self, c: u8) -> bool
        ensures { result ≡ at is_calling self.now.contexts c }
    {
        match self.contexts.get(c as usize) {
            Some(Context::Open { call: Some(_), .. }) => true,
            _ => false,
        }
    }

    /// Whether the context's call may be answered.
    pub(crate) fn may_be_answered(&self, c: u8) -> bool
        ensures { result ≡ at (may_be_answered self.now.contexts) self.now.contexts c }
    {
        match self.contexts.get(c as usize) {
            Some(
                Context::Open {
                    call: Some(call),
                    ..
                },
            ) => self.has_left(call.transfer),
            _ => false,
        }
    }

    /// Whether a handler may be open beside those that are.
    pub(crate) fn in_brackets(&self, a: u8, h: Handler) -> bool
        ensures { result ≡ in_brackets (owner_of self.now) a h }
    {
        let alone = is_serial(h) && (self.is_serialized(a) || is_exclusive(h));
        let serial = implies(alone, self.none_runs(Group::Serial, a));
        let exclusive = implies(is_serial(h), self.none_runs(Group::Exclusive, a));
        let dpc = implies(is_dpc(h), self.none_runs(Group::Dpc, a));
        let hang = implies(is_hang_check(h), self.none_runs(Group::HangCheck, a));
        let interrupt = implies(is_interrupt(h), self.none_runs(Group::Interrupt, a));
        let transfer = implies(is_transfer(h), self.is_transfer_wanted(a));
        serial && (exclusive && (dpc && (hang && (interrupt && transfer))))
    }
}
