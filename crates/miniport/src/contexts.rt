//! What the book of owners says of a context and its adapter.

ghost use Rattle.std.specs.Prelude.{◌≡◌, ◌<◌, slice_get, slice_index_or};
ghost use Rattle.owner_machine.specs.State.{at, is_running, phase_is};
ghost use Rattle.legal_run.specs.State.{adapter_in, is_alive, is_open_context, no_context};

use ia32_step::Regs;
use miniport_state::Adapters;
use nd_base::{AdapterNo, CtxNo, Phase};
use owner_book::Book;
use owner_machine::Context;

/// The adapter whose handler is open in the context; none of DriverEntry.
pub fn adapter_of(book: &Book, x: CtxNo) -> Option<AdapterNo>
    ensures { result ≡ adapter_in (slice_get book.now.contexts x.0) }
{
    match book.context(x) {
        Some(Context::Open { adapter, .. }) => adapter,
        _ => None,
    }
}

/// Whether a handler is open in the context.
pub fn is_open(book: &Book, x: CtxNo) -> bool
    ensures { result ≡ at is_open_context book.now.contexts x.0 }
{
    matches!(book.context(x), Some(Context::Open { .. }))
}

fn is_alive_phase(phase: Phase) -> bool
    ensures { result ≡ is_alive phase }
{
    !matches!(phase, Phase::Off | Phase::Stopped)
}

/// Whether an adapter is neither off nor stopped.
pub fn is_alive(book: &Book, a: AdapterNo) -> bool
    ensures { result ≡ phase_is is_alive book.now a.0 }
{
    usize::from(a.0) < book.adapters() && is_alive_phase(book.standing(a).phase)
}

/// Whether an adapter runs.
pub fn is_running(book: &Book, a: AdapterNo) -> bool
    ensures { result ≡ phase_is is_running book.now a.0 }
{
    usize::from(a.0) < book.adapters() && matches!(book.standing(a).phase, Phase::Running)
}

/// The registers of a context.
pub fn registers_at(adapters: &Adapters, x: CtxNo) -> Regs
    requires { x.0 < 16 }
    ensures { result ≡ (slice_index_or adapters.now.contexts x.0 no_context).registers }
{
    let context = &adapters.contexts[usize::from(x.0)];
    context.registers
}
