//! Calls by their imports.

ghost use Rattle.std.specs.Prelude.{◌≡◌, ◌≤◌, ◌<◌, Ok, Some, length, slice_get, IfOk};
ghost use Rattle.nd_base.specs.declared.numbers.CtxNo.{CtxNo};
ghost use Rattle.guest_world.specs.declared.answer.Answer.TheVariants.{Now};
ghost use Rattle.guest_calls.specs.Rows.{words_of};
ghost use Rattle.import_answers.specs.Outcomes.{Comes};
ghost use Rattle.import_answers.specs.World.{IsNumber, word};
ghost use Rattle.legal_run.specs.State.{State, adapter_in, adapter_of};
ghost use Rattle.legal_run.specs.Calls.{completion, did, handed_at, outcome_of, served};
ghost use Rattle.call_verdicts.specs.Deeds.{CanMake, CanServe, IsBehind, did_as};

use crate::arrays::indication;
use crate::deeds::{Deed, nothing};
use crate::packets::{completion, handed_at};
use crate::ports::port_deed;
use crate::requests::request_end;
use crate::resets::reset_end;
use crate::words::{word, words_of};
use guest_world::{Reply, World};
use import_table::Call;
use legal_run::calls_keep;
use nd_base::{AdapterNo, CtxNo, OutOfMemory};
use owner_book::Book;
use owner_machine::Context;
use run_course::Frame;
use std::alloc::Global;

/// The adapter whose handler is open in a context.
fn adapter_of(book: &Book, x: CtxNo) -> Option<AdapterNo>
    ensures { result ≡ adapter_in (slice_get book.now.contexts x.0) }
{
    match book.context(x) {
        Some(Context::Open { adapter, .. }) => adapter,
        _ => None,
    }
}

/// NdisMSendComplete: the packet that lies at an address is ended with a status.
fn send_complete(
    alloc: Global,
    book: &Book,
    frames: &[Frame],
    a: AdapterNo,
    words: &[u32],
) -> Result<Deed, OutOfMemory>
    ghost s: { State }
    requires owner { book.now ≡ s.owner }
    requires frames { frames.now ≡ s.packets }
    ensures { IfOk result (λ d. did_as d ≡ completion s (word words.now 3) (handed_at s a.0 (word words.now 2))) }
{
    let packet = handed_at(book, frames, a, word(words, 2));
    completion(alloc, book, word(words, 3), packet)
}

/// What a call of an adapter makes by its import.
fn served(
    alloc: Global,
    book: &Book,
    world: &World,
    frames: &[Frame],
    a: AdapterNo,
    import: u8,
    words: &[u32],
    reply: &Reply,
) -> Result<Deed, OutOfMemory>
    ghost s: { State }
    requires owner { book.now ≡ s.owner }
    requires frames { frames.now ≡ s.packets }
    requires number { a.0 < 4 }
    requires drivers { length s.owner.drivers ≤ 256 }
    requires world { IsBehind s import words.now world.now }
    requires readable { CanMake s a.0 import }
    ensures { IfOk result (λ d. did_as d ≡ served s (Some a) import words.now reply.now) }
{
    match import {
        39 => send_complete(alloc, book, frames, a, words),
        41 => indication(alloc, book, world, a, word(words, 2), word(words, 3)),
        42 => reset_end(alloc, book, a, word(words, 2)),
        43 => request_end(alloc, book, world, a, false, word(words, 2)),
        44 => request_end(alloc, book, world, a, true, word(words, 2)),
        53..=60 => port_deed(alloc, world, a, import, words, reply),
        _ => Ok(nothing(alloc)),
    }
}

/// What a call does that its import's row has answered at once: the rule that it breaks, or the entries
/// that it makes. The world is the one behind the answer.
///
/// # Errors
/// [`OutOfMemory`] where no memory is left.
pub fn made(
    alloc: Global,
    book: &Book,
    world: &World,
    frames: &[Frame],
    x: CtxNo,
    call: &Call,
    reply: &Reply,
) -> Result<Deed, OutOfMemory>
    ghost s: { State }
    requires owner { book.now ≡ s.owner }
    requires frames { frames.now ≡ s.packets }
    requires number { IsNumber (adapter_of s x.0) }
    requires drivers { length s.owner.drivers ≤ 256 }
    requires comes { Comes (outcome_of s x call.now.import (words_of call.now)) s.world (Ok (Now reply.now)) world.now }
    requires readable { CanServe s (adapter_of s x.0) call.now.import }
    ensures { IfOk result (λ d. did_as d ≡ did s x call.now.import (words_of call.now)) }
{
    calls_keep();
    match adapter_of(book, x) {
        Some(a) => {
            let words = words_of(call);
            served(alloc, book, world, frames, a, call.import, words, reply)
        }
        None => Ok(nothing(alloc)),
    }
}
