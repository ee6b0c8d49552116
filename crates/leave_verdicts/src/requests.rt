//! MiniportQueryInformation and MiniportSetInformation.

ghost use Rattle.std.specs.Prelude.{◌≡◌, ◌<◌, ℕ, Some, IfOk, slice_get};
ghost use Rattle.std.specs.Option.{option_and_then};
ghost use Rattle.legal_run.specs.State.{State};
ghost use Rattle.legal_run.specs.Owed.{first};
ghost use Rattle.legal_run.specs.Calls.{handed_request, is_at, request_verdict};
ghost use Rattle.verdict_parts.specs.Places.{CanAnswer};
ghost use Rattle.leave_verdicts.specs.Judged.{CanAnswerAt, drawn_as};

use crate::judgement::{Judgement, breaks, nothing, one};
use crate::statuses::PENDING;
use guest_world::World;
use nd_base::{AdapterNo, OutOfMemory};
use owner_book::Book;
use owner_machine::Request;
use std::alloc::Global;
use verdict_parts::{answer, fits, handed_request, request_at};

/// The rule against a verdict on a request that is not handed.
const REQUEST_RULE: u8 = 3;

/// The rule against an answer that does not fit its question.
const ANSWER_RULE: u8 = 10;

/// Whether a request is the adapter's that is handed.
fn is_handed(book: &Book, a: AdapterNo, r: u64) -> bool
    ghost s: { State }
    requires { book.now ≡ s.owner }
    ensures { result ≡ is_at r (handed_request s a.0) }
{
    match handed_request(book, a) {
        Some(handed) => handed == r,
        None => false,
    }
}

/// The verdict on a request by the status of its handler.
fn verdict_on(
    alloc: Global,
    book: &Book,
    world: &World,
    a: AdapterNo,
    status: u32,
    r: u64,
    row: &Request,
) -> Result<Judgement, OutOfMemory>
    ghost s: { State }
    requires owner { book.now ≡ s.owner }
    requires world { world.now ≡ s.world }
    requires number { a.0 < 4 }
    requires answer { CanAnswer s a.0 row.now.question }
    ensures { IfOk result (λ j. drawn_as j ≡ request_verdict s a.0 status (Some r) (Some row.now)) }
{
    if status == PENDING {
        return Ok(nothing(alloc));
    }
    if !is_handed(book, a, r) {
        return Ok(breaks(REQUEST_RULE));
    }
    if !fits(world, a, status, &row.question) {
        return Ok(breaks(ANSWER_RULE));
    }
    let entry = answer(alloc, world, a, status, r, &row.question)?;
    one(alloc, entry)
}

/// The verdict on the request that a handler was entered for.
pub(crate) fn request_verdict(
    alloc: Global,
    book: &Book,
    world: &World,
    a: AdapterNo,
    status: u32,
    subject: &[u64],
) -> Result<Judgement, OutOfMemory>
    ghost s: { State }
    requires owner { book.now ≡ s.owner }
    requires world { world.now ≡ s.world }
    requires number { a.0 < 4 }
    requires answer { CanAnswerAt s a.0 (first subject.now) }
    ensures { IfOk result (λ j. drawn_as j ≡ request_verdict s a.0 status (first subject.now)
        (option_and_then (λ r. slice_get s.owner.requests r) (first subject.now))) }
{
    let about = subject.first().copied();
    match (about, request_at(book, about)) {
        (Some(r), Some(row)) => verdict_on(alloc, book, world, a, status, r, row),
        _ => Ok(nothing(alloc)),
    }
}
