//! What a request is answered with.

ghost use Rattle.std.specs.Prelude.{◌≡◌, ◌<◌, true, IfOk, option_copied, slice_get};
ghost use Rattle.std.specs.Option.{option_and_then};
ghost use Rattle.legal_run.specs.State.{State};
ghost use Rattle.legal_run.specs.Calls.{answer, answer_bytes, fits, handed_request, written_count};
ghost use Rattle.guest_map.specs.Regions.{request_count};
ghost use Rattle.verdict_parts.specs.Places.{CanAnswer, CanRead};

use crate::reading::{bytes_at, word_at};
use call_log::{Entry, Question};
use guest_map::{request_bytes, request_count};
use guest_world::World;
use nd_base::{AdapterNo, Bytes, OutOfMemory, RequestNo, Status};
use owner_book::{Book, WhichRequests};
use owner_machine::Request;
use std::alloc::Global;

/// NDIS_STATUS_SUCCESS.
const SUCCESS: u32 = 0;

/// The adapter's request that is handed, if one is.
pub fn handed_request(book: &Book, a: AdapterNo) -> Option<u64>
    ghost s: { State }
    requires { book.now ≡ s.owner }
    ensures { result ≡ handed_request s a.0 }
{
    book.first_request(WhichRequests::HandedOf(a.0))
}

/// The request of a number, if there is one.
pub fn request_at(book: &Book, r: Option<u64>) -> Option<&Request>
    ghost s: { State }
    requires { book.now ≡ s.owner }
    ensures { option_copied result ≡ option_and_then (λ k. slice_get s.owner.requests k) r }
{
    match r {
        Some(k) => book.request(RequestNo(k)),
        None => None,
    }
}

/// How many bytes the miniport says that it wrote.
fn written_count(world: &World, a: AdapterNo) -> u32
    ghost s: { State }
    requires world { world.now ≡ s.world }
    requires number { a.0 < 4 }
    requires count { CanRead s (request_count a.0).first.0 4 }
    ensures { result ≡ written_count s a.0 }
{
    word_at(&world.memory, request_count(a).first.0)
}

/// Whether what answers a question is no more than was asked for.
pub fn fits(world: &World, a: AdapterNo, status: u32, question: &Question) -> bool
    ghost s: { State }
    requires world { world.now ≡ s.world }
    requires number { a.0 < 4 }
    requires answer { CanAnswer s a.0 question.now }
    ensures { result ≡ fits s a.0 status question.now }
{
    match question {
        Question::Query { length, .. } => status != SUCCESS || written_count(world, a) <= *length,
        Question::Set { .. } => true,
    }
}

/// What a query that succeeds wrote; of every other request nothing.
fn answer_bytes(
    alloc: Global,
    world: &World,
    a: AdapterNo,
    status: u32,
    question: &Question,
) -> Result<Bytes, OutOfMemory>
    ghost s: { State }
    requires world { world.now ≡ s.world }
    requires number { a.0 < 4 }
    requires answer { CanAnswer s a.0 question.now }
    requires fits { fits s a.0 status question.now ≡ true }
    ensures { IfOk result (λ bytes. bytes ≡ answer_bytes s a.0 status question.now) }
{
    match question {
        Question::Query { .. } if status == SUCCESS => {
            let count = written_count(world, a);
            let bytes = bytes_at(alloc, &world.memory, request_bytes(a).first.0, count)?;
            Bytes::copy(alloc, &bytes)
        }
        _ => Ok(Bytes::new(alloc)),
    }
}

/// The entry that answers a request.
///
/// # Errors
/// [`OutOfMemory`] where no memory is left.
pub fn answer(
    alloc: Global,
    world: &World,
    a: AdapterNo,
    status: u32,
    r: u64,
    question: &Question,
) -> Result<Entry, OutOfMemory>
    ghost s: { State }
    requires world { world.now ≡ s.world }
    requires number { a.0 < 4 }
    requires answer { CanAnswer s a.0 question.now }
    requires fits { fits s a.0 status question.now ≡ true }
    ensures { IfOk result (λ entry. entry ≡ answer s a.0 status r question.now) }
{
    let bytes = answer_bytes(alloc, world, a, status, question)?;
    Ok(Entry::Answer {
        request: RequestNo(r),
        status: Status(status),
        bytes,
    })
}
