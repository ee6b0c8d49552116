//! Handlers that are entered for a request or a loan.

ghost use Rattle.std.specs.Prelude.{◌≡◌, ◌≤◌, ◌<◌, ◌∷◌, [], true, false, length, IfOk, Some, is_some};
ghost use Rattle.guest_map.specs.Regions.{request_bytes, request_count, request_needed};
ghost use Rattle.log_fields.specs.declared.field_values.Handler.TheVariants as handler;
ghost use Rattle.owner_machine.specs.Requests.{is_set};
ghost use Rattle.legal_run.specs.State.{State, is_free};
ghost use Rattle.legal_run.specs.Owed.{frame_due};
ghost use Rattle.legal_run.specs.Enters.{context_word, loan_named, oid_of, put_some, zero_at};
ghost use Rattle.miniport_state.specs.Seen.{Point};
ghost use Rattle.handler_words.specs.Asked.{IsAsked, IsAskedOr, asked_as, asking_handler, length_by, next_number};
ghost use Rattle.handler_words.specs.Ready.{IsReady};

use crate::events::length_of;
use crate::given::context_word;
use crate::subjects::in_list;
use crate::writes::{put_some, zeros};
use guest_map::{request_bytes, request_count, request_needed};
use guest_world::World;
use handler_entries::Entering;
use log_fields::{Handler, Question, Words, Writes};
use nd_base::{AdapterNo, Bytes, CtxNo, OutOfMemory, RequestNo};
use oid_sets::set_bytes;
use owner_book::{Book, WhichRequests};
use owner_machine::Request;
use std::alloc::Global;

/// A request that is handed to a miniport.
#[derive(Drop)]
pub struct Asked {
    /// Its number.
    pub number: u64,
    /// It is a set.
    pub is_set: bool,
    /// Its object identifier.
    pub oid: u32,
    /// How many bytes its buffer has.
    pub length: u32,
    /// The bytes that a set hands; none of a query.
    pub bytes: Bytes,
}

/// Whether a question is a set.
fn is_set(question: &Question) -> bool
    ensures { result ≡ is_set question.now }
{
    matches!(question, Question::Set { .. })
}

/// The object identifier of a question.
fn oid_of(question: &Question) -> u32
    ensures { result ≡ oid_of question.now }
{
    match question {
        Question::Query { oid, .. } => *oid,
        Question::Set { oid, .. } => *oid,
    }
}

/// How many bytes the buffer of a question has, whose set hands these.
fn length_by(question: &Question, bytes: &[u8]) -> Result<u32, OutOfMemory>
    ensures { IfOk result (λ n. n ≡ length_by question.now bytes.now) }
{
    match question {
        Question::Query { length, .. } => Ok(*length),
        Question::Set { .. } => length_of(bytes),
    }
}

/// The request of a number, as it is handed.
#[tactic(auto, using(crate::proofs::Asks::length_told))]
fn asked_as(
    alloc: Global,
    book: &Book,
    a: AdapterNo,
    number: u64,
    request: &Request,
) -> Result<Asked, OutOfMemory>
    ghost s: { State }
    requires owner { book.now ≡ s.owner }
    requires few { length book.now.drivers ≤ 256 }
    ensures { IfOk result (λ asked. asked ≡ asked_as s a.0 number request.now) }
{
    let question = &request.question;
    let bytes = set_bytes(alloc, book, a, request.driver, question)?;
    let length = length_by(question, bytes.as_slice())?;
    Ok(Asked {
        number,
        is_set: is_set(question),
        oid: oid_of(question),
        length,
        bytes,
    })
}

/// The number of the least request of an adapter that is asked, where its miniport has none.
fn next_number(book: &Book, a: AdapterNo) -> Option<u64>
    ensures { result ≡ next_number book.now a.0 }
{
    if book.has_request(WhichRequests::HandedOf(a.0)) {
        None
    } else {
        book.first_request(WhichRequests::AskedOf(a.0))
    }
}

/// The request that an adapter is to be handed, if there is one: the least that is asked, where its
/// miniport has none.
///
/// # Errors
/// [`OutOfMemory`] where no memory is left, or a word can't tell what a set hands.
#[tactic(auto, using(crate::proofs::Asks::none_asked, crate::proofs::Asks::none_there, crate::proofs::Asks::one_asked))]
pub fn to_hand(alloc: Global, book: &Book, a: AdapterNo) -> Result<Option<Asked>, OutOfMemory>
    ghost s: { State }
    requires owner { book.now ≡ s.owner }
    requires few { length book.now.drivers ≤ 256 }
    ensures { IfOk result (IsAskedOr s a.0) }
{
    let Some(number) = next_number(book, a) else {
        return Ok(None);
    };
    let Some(request) = book.request(RequestNo(number)) else {
        return Ok(None);
    };
    let asked = asked_as(alloc, book, a, number, request)?;
    Ok(Some(asked))
}

/// MiniportSetInformation of a set, and MiniportQueryInformation of a query.
fn asking_handler(is_set: bool) -> Handler
    ensures { result ≡ asking_handler is_set }
{
    if is_set { Handler::Set } else { Handler::Query }
}

/// The argument words of a request's handler: the adapter's context word, the object identifier, the
/// buffer and its length, and the two places that it answers in.
fn request_words(
    alloc: Global,
    context: u32,
    a: AdapterNo,
    oid: u32,
    length: u32,
) -> Result<Words, OutOfMemory>
    requires { a.0 < 4 }
    ensures { IfOk result (λ words. words ≡ context ∷ oid ∷ (request_bytes a.0).first.0 ∷ length ∷ (request_count a.0).first.0 ∷ (request_needed a.0).first.0 ∷ []) }
{
    let buffer = request_bytes(a).first.0;
    let count = request_count(a).first.0;
    let needed = request_needed(a).first.0;
    Words::copy(alloc, &[context, oid, buffer, length, count, needed])
}

/// What is written for a request: zeros at the two places that it answers in, and the bytes that it
/// hands.
fn request_writes(alloc: Global, a: AdapterNo, bytes: &[u8]) -> Result<Writes, OutOfMemory>
    requires { a.0 < 4 }
    ensures { IfOk result (λ writes. writes ≡ zero_at (request_count a.0).first.0 ∷ zero_at (request_needed a.0).first.0 ∷ put_some (request_bytes a.0).first.0 bytes.now) }
{
    let places = [request_count(a).first.0, request_needed(a).first.0];
    let mut writes = zeros(alloc, &places)?;
    put_some(alloc, &mut writes, request_bytes(a).first.0, bytes)?;
    Ok(writes)
}

/// A request's handler that is to be entered for an adapter in a free context.
///
/// # Errors
/// [`OutOfMemory`] where no memory is left.
pub fn entering_asked(
    alloc: Global,
    world: &World,
    a: AdapterNo,
    x: CtxNo,
    asked: &Asked,
) -> Result<Entering, OutOfMemory>
    ghost o: { Point }
    requires world { world.now ≡ o.state.world }
    requires adapter { a.0 < 4 }
    requires free { is_free o.state x.0 ≡ true }
    requires frames { frame_due o.inputs o.state ≡ false }
    requires asked { IsAsked o.state a.0 asked.now }
    ensures { IfOk result (IsReady o (Some a) x (asking_handler asked.now.is_set)) }
{
    let words = request_words(alloc, context_word(world, a), a, asked.oid, asked.length)?;
    let writes = request_writes(alloc, a, asked.bytes.as_slice())?;
    let subject = in_list(alloc, Some(asked.number))?;
    Ok(Entering {
        adapter: Some(a),
        handler: asking_handler(asked.is_set),
        words,
        writes,
        subject,
    })
}

/// MiniportReturnPacket that is to be entered for an adapter in a free context, for a loan that goes
/// home: its descriptor is given.
///
/// # Errors
/// [`OutOfMemory`] where no memory is left.
pub fn entering_return(
    alloc: Global,
    world: &World,
    a: AdapterNo,
    x: CtxNo,
    descriptor: u32,
) -> Result<Entering, OutOfMemory>
    ghost o: { Point }
    requires world { world.now ≡ o.state.world }
    requires free { is_free o.state x.0 ≡ true }
    requires frames { frame_due o.inputs o.state ≡ false }
    requires home { is_some (loan_named o.state a.0 (0 ∷ descriptor ∷ [])) ≡ true }
    ensures { IfOk result (IsReady o (Some a) x handler.ReturnPacket) }
{
    let words = Words::copy(alloc, &[context_word(world, a), descriptor])?;
    Ok(Entering {
        adapter: Some(a),
        handler: Handler::ReturnPacket,
        words,
        writes: Writes::new(alloc),
        subject: Vec::new(alloc),
    })
}
