//! MiniportReset.

ghost use Rattle.std.specs.Prelude.{◌≡◌, [], IfOk};
ghost use Rattle.log_fields.specs.declared.field_values.Handler.TheVariants as handler;
ghost use Rattle.legal_run.specs.State.{State};
ghost use Rattle.legal_run.specs.Calls.{drawn_from};
ghost use Rattle.leave_verdicts.specs.Judged.{drawn_as};

use crate::judgement::{Judgement, breaks, nothing, one};
use crate::statuses::PENDING;
use call_log::Entry;
use nd_base::{AdapterNo, OutOfMemory, Status};
use owner_book::Book;
use std::alloc::Global;
use verdict_parts::is_resetting;

/// The rule against the end of a reset that has not begun.
const RESET_RULE: u8 = 4;

/// A reset ends with the status of its handler, unless NdisMResetComplete is to end it.
pub(crate) fn reset_verdict(
    alloc: Global,
    book: &Book,
    a: AdapterNo,
    eax: u32,
) -> Result<Judgement, OutOfMemory>
    ghost s: { State }
    requires { book.now ≡ s.owner }
    ensures { IfOk result (λ j. drawn_as j ≡ drawn_from s a.0 eax [] handler.Reset) }
{
    if eax == PENDING {
        return Ok(nothing(alloc));
    }
    if !is_resetting(book, a) {
        return Ok(breaks(RESET_RULE));
    }
    let end = Entry::ResetEnd {
        adapter: a,
        status: Status(eax),
    };
    one(alloc, end)
}
