//! NdisMResetComplete.

ghost use Rattle.std.specs.Prelude.{◌≡◌, IfOk};
ghost use Rattle.legal_run.specs.State.{State};
ghost use Rattle.legal_run.specs.Calls.{reset_end};
ghost use Rattle.call_verdicts.specs.Deeds.{did_as};

use crate::deeds::{Deed, breaks, one};
use crate::rules::{PENDING, PENDING_RULE};
use call_log::Entry;
use nd_base::{AdapterNo, OutOfMemory, Status};
use owner_book::Book;
use std::alloc::Global;
use verdict_parts::is_resetting;

/// The rule against the end of a reset that has not begun.
const RESET_RULE: u8 = 4;

/// NdisMResetComplete: the reset of the adapter ends with a status.
///
/// # Errors
/// [`OutOfMemory`] where no memory is left.
pub(crate) fn reset_end(
    alloc: Global,
    book: &Book,
    a: AdapterNo,
    status: u32,
) -> Result<Deed, OutOfMemory>
    ghost s: { State }
    requires { book.now ≡ s.owner }
    ensures { IfOk result (λ d. did_as d ≡ reset_end s a.0 status) }
{
    if !is_resetting(book, a) {
        return Ok(breaks(RESET_RULE));
    }
    if status == PENDING {
        return Ok(breaks(PENDING_RULE));
    }
    let end = Entry::ResetEnd {
        adapter: a,
        status: Status(status),
    };
    one(alloc, end)
}
