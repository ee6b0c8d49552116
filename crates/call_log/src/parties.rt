//! The driver, the adapter and the context of an entry.

ghost use Rattle.std.specs.Prelude.{◌≡◌};
ghost use Rattle.call_log.specs.Parties.{of_driver, of_adapter, of_context};

use crate::entry::Entry;
use nd_base::{AdapterNo, BindingNo, CtxNo};

/// The driver of an entry, where its line has one.
pub fn of_driver(entry: &Entry) -> Option<BindingNo>
    ensures { result ≡ of_driver entry.now }
{
    match entry {
        Entry::Bind { driver, .. }
        | Entry::Unbind { driver, .. }
        | Entry::Quiet { driver, .. }
        | Entry::Done { driver, .. }
        | Entry::Send { driver, .. }
        | Entry::Return { driver, .. }
        | Entry::Ask { driver, .. }
        | Entry::Await { driver, .. }
        | Entry::Cancel { driver, .. }
        | Entry::Event { driver, .. } => Some(*driver),
        _ => None,
    }
}

/// The adapter of an entry, where its line has one. The `enter` of DriverEntry has none.
pub fn of_adapter(entry: &Entry) -> Option<AdapterNo>
    ensures { result ≡ of_adapter entry.now }
{
    match entry {
        Entry::Enter { adapter, .. } => *adapter,
        Entry::Bind { adapter, .. }
        | Entry::Indicate { adapter, .. }
        | Entry::Port { adapter, .. }
        | Entry::WireOut { adapter, .. }
        | Entry::ResetBegin { adapter, .. }
        | Entry::ResetEnd { adapter, .. }
        | Entry::Stop { adapter, .. } => Some(*adapter),
        _ => None,
    }
}

/// The context of an entry, where its line has one.
pub fn of_context(entry: &Entry) -> Option<CtxNo>
    ensures { result ≡ of_context entry.now }
{
    match entry {
        Entry::Enter { context, .. }
        | Entry::Leave { context, .. }
        | Entry::Turn { context, .. }
        | Entry::Call { context, .. }
        | Entry::Reply { context, .. }
        | Entry::Spin { context, .. }
        | Entry::Fault { context, .. } => Some(*context),
        _ => None,
    }
}
