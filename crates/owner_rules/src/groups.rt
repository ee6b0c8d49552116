//! Handlers that are asked for together.

ghost use Rattle.std.specs.Prelude.{◌≡◌};
ghost use Rattle.owner_machine.specs.Contexts.{is_serial, is_exclusive, is_dpc, is_hang_check, is_interrupt, is_transfer, is_entry, is_reset, is_halt};
ghost use Rattle.owner_rules.specs.Groups.{in_group};

use call_log::Handler;

/// Handlers that are asked for together.
#[derive(Clone, Copy)]
pub enum Group {
    /// Those of which a serialized miniport has one open at a time.
    Serial,
    /// Those that overlap with no serial one.
    Exclusive,
    /// MiniportHandleInterrupt.
    Dpc,
    /// MiniportCheckForHang.
    HangCheck,
    /// The interrupt handlers.
    Interrupt,
    Any,
}

impl Group {
    pub(crate) fn has(self, handler: Handler) -> bool
        ensures { result ≡ in_group self handler }
    {
        match self {
            Group::Serial => is_serial(handler),
            Group::Exclusive => is_exclusive(handler),
            Group::Dpc => is_dpc(handler),
            Group::HangCheck => is_hang_check(handler),
            Group::Interrupt => is_interrupt(handler),
            Group::Any => true,
        }
    }
}

pub(crate) fn is_serial(handler: Handler) -> bool
    ensures { result ≡ is_serial handler }
{
    !matches!(
        handler,
        Handler::DriverEntry
            | Handler::Isr
            | Handler::DisableInterrupt
            | Handler::Sync
            | Handler::TransferData
    )
}

pub(crate) fn is_exclusive(handler: Handler) -> bool
    ensures { result ≡ is_exclusive handler }
{
    matches!(
        handler,
        Handler::Initialize | Handler::Halt | Handler::Shutdown | Handler::Reset
    )
}

pub(crate) fn is_dpc(handler: Handler) -> bool
    ensures { result ≡ is_dpc handler }
{
    matches!(handler, Handler::HandleInterrupt)
}

pub(crate) fn is_hang_check(handler: Handler) -> bool
    ensures { result ≡ is_hang_check handler }
{
    matches!(handler, Handler::CheckForHang)
}

pub(crate) fn is_interrupt(handler: Handler) -> bool
    ensures { result ≡ is_interrupt handler }
{
    matches!(
        handler,
        Handler::Isr | Handler::DisableInterrupt | Handler::Sync
    )
}

pub(crate) fn is_transfer(handler: Handler) -> bool
    ensures { result ≡ is_transfer handler }
{
    matches!(handler, Handler::TransferData)
}

pub(crate) fn is_entry(handler: Handler) -> bool
    ensures { result ≡ is_entry handler }
{
    matches!(handler, Handler::DriverEntry)
}

pub(crate) fn is_reset(handler: Handler) -> bool
    ensures { result ≡ is_reset handler }
{
    matches!(handler, Handler::Reset)
}

pub(crate) fn is_halt(handler: Handler) -> bool
    ensures { result ≡ is_halt handler }
{
    matches!(handler, Handler::Halt | Handler::Shutdown)
}
