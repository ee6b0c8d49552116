//! NdisMQueryInformationComplete and NdisMSetInformationComplete.

ghost use Rattle.std.specs.Prelude.{◌≡◌, ◌<◌, Some, IfOk};
ghost use Rattle.legal_run.specs.State.{State};
ghost use Rattle.legal_run.specs.Calls.{answered, request_end, same_kind};
ghost use Rattle.owner_machine.specs.Requests.{is_set};
ghost use Rattle.verdict_parts.specs.Places.{CanAnswer};
ghost use Rattle.call_verdicts.specs.Deeds.{CanEnd, did_as};

use crate::deeds::{Deed, breaks, one};
use crate::rules::{PENDING, PENDING_RULE};
use call_log::Question;
use guest_world::World;
use nd_base::{AdapterNo, OutOfMemory};
use owner_book::Book;
use owner_machine::Request;
use std::alloc::Global;
use verdict_parts::{answer, fits, handed_request, request_at};

/// The rule against the completion of a request that is not handed.
const REQUEST_RULE: u8 = 3;

/// Whether a question is of a kind: a set, or a query.
fn is_of_kind(set: bool, question: &Question) -> bool
    ensures { result ≡ same_kind set (is_set question.now) }
{
    match question {
        Question::Set { .. } => set,
        Question::Query { .. } => !set,
    }
}

/// The completion of a request that is handed.
fn answered(
    alloc: Global,
    world: &World,
    a: AdapterNo,
    set: bool,
    status: u32,
    r: u64,
    row: &Request,
) -> Result<Deed, OutOfMemory>
    ghost s: { State }
    requires world { world.now ≡ s.world }
    requires number { a.0 < 4 }
    requires answer { CanAnswer s a.0 row.now.question }
    ensures { IfOk result (λ d. did_as d ≡ answered s a.0 set status (Some r) (Some row.now)) }
{
    if !is_of_kind(set, &row.question) {
        return Ok(breaks(REQUEST_RULE));
    }
    if status == PENDING || !fits(world, a, status, &row.question) {
        return Ok(breaks(PENDING_RULE));
    }
    let entry = answer(alloc, world, a, status, r, &row.question)?;
    one(alloc, entry)
}

/// NdisMQueryInformationComplete, or NdisMSetInformationComplete: the adapter's request that is handed
/// is answered with a status.
///
/// # Errors
/// [`OutOfMemory`] where no memory is left.
pub(crate) fn request_end(
    alloc: Global,
    book: &Book,
    world: &World,
    a: AdapterNo,
    set: bool,
    status: u32,
) -> Result<Deed, OutOfMemory>
    ghost s: { State }
    requires owner { book.now ≡ s.owner }
    requires world { world.now ≡ s.world }
    requires number { a.0 < 4 }
    requires answer { CanEnd s a.0 }
    ensures { IfOk result (λ d. did_as d ≡ request_end s a.0 set status) }
{
    let handed = handed_request(book, a);
    match (handed, request_at(book, handed)) {
        (Some(r), Some(row)) => answered(alloc, world, a, set, status, r, row),
        _ => Ok(breaks(REQUEST_RULE)),
    }
}
