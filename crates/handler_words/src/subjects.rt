//! What a handler is about.

ghost use Rattle.std.specs.Prelude.{◌≡◌, IfOk};
ghost use Rattle.legal_run.specs.After.{in_list};
ghost use Rattle.handler_words.specs.Given.{caller_of};

use log_fields::Handler;
use nd_base::OutOfMemory;
use std::alloc::Global;

/// A number in a list, or no number.
pub(crate) fn in_list(alloc: Global, one: Option<u64>) -> Result<Vec<u64>, OutOfMemory>
    ensures { IfOk result (λ numbers. numbers.items ≡ in_list one) }
{
    let mut numbers = Vec::new(alloc);
    if let Some(n) = one {
        numbers.push(n)?;
    }
    Ok(numbers)
}

/// The context that called for a function of its interrupt; none for another handler.
fn caller_of(h: Handler, caller: Option<u8>) -> Option<u64>
    ensures { result ≡ caller_of h caller }
{
    match (h, caller) {
        (Handler::Sync, Some(x)) => Some(u64::from(x)),
        _ => None,
    }
}

/// What the handler is about, where that is no packet and no request: the context that called for it.
pub(crate) fn subject(
    alloc: Global,
    h: Handler,
    caller: Option<u8>,
) -> Result<Vec<u64>, OutOfMemory>
    ensures { IfOk result (λ numbers. numbers.items ≡ in_list (caller_of h caller)) }
{
    in_list(alloc, caller_of(h, caller))
}
