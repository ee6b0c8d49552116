//! What is written for a handler beside its stack, by handler.

ghost use Rattle.std.specs.Prelude.{◌≡◌, ◌<◌, ◌++◌, ◌∷◌, [], List, ℕ, true, IfOk, OnOk};
ghost use Rattle.log_fields.specs.declared.write.Write.{Write};
ghost use Rattle.legal_run.specs.Enters.{put_some, writes_of, zero_at};
ghost use Rattle.miniport_state.specs.Seen.{Point};
ghost use Rattle.handler_words.specs.Given.{is_plain, zeros_at};

use crate::events::event_bytes;
use guest_map::answer_area;
use log_fields::{Handler, Write, Writes};
use nd_base::{AdapterNo, Addr, Bytes, CtxNo, OutOfMemory};
use owner_book::Book;
use std::alloc::Global;

/// Puts the write of a zero word behind the others.
fn put_zero(alloc: Global, writes: &mut Writes, at: u32) -> Result<(), OutOfMemory>
    ensures { OnOk result (writes.new ≡ writes.old ++ zero_at at ∷ []) }
{
    let bytes = Bytes::copy(alloc, &[0, 0, 0, 0])?;
    writes.push(Write {
        at: Addr(at),
        bytes,
    })
}

/// Puts the write of bytes behind the others; no bytes make no write.
pub(crate) fn put_some(
    alloc: Global,
    writes: &mut Writes,
    at: u32,
    bytes: &[u8],
) -> Result<(), OutOfMemory>
    ensures { OnOk result (writes.new ≡ writes.old ++ put_some at bytes.now) }
{
    if bytes.is_empty() {
        return Ok(());
    }
    let bytes = Bytes::copy(alloc, bytes)?;
    writes.push(Write {
        at: Addr(at),
        bytes,
    })
}

/// Puts the writes of zero words at these places behind the others.
fn put_zeros(alloc: Global, writes: &mut Writes, places: &[u32]) -> Result<(), OutOfMemory>
    ensures { OnOk result (writes.new ≡ writes.old ++ zeros_at places.now) }
{
    for at in places {
        put_zero(alloc, writes, *at)?;
    }
    Ok(())
}

/// The writes of zero words at these places.
pub(crate) fn zeros(alloc: Global, places: &[u32]) -> Result<Writes, OutOfMemory>
    ensures { IfOk result (λ writes. writes ≡ zeros_at places.now) }
{
    let mut writes = Writes::new(alloc);
    put_zeros(alloc, &mut writes, places)?;
    Ok(writes)
}

/// The write of bytes; no bytes make no write.
fn one(alloc: Global, at: u32, bytes: &[u8]) -> Result<Writes, OutOfMemory>
    ensures { IfOk result (λ writes. writes ≡ put_some at bytes.now) }
{
    let mut writes = Writes::new(alloc);
    put_some(alloc, &mut writes, at, bytes)?;
    Ok(writes)
}

/// What is written beside the stack of a handler that is entered for an adapter in a context.
///
/// # Errors
/// [`OutOfMemory`] where no memory is left.
pub fn writes_of(
    alloc: Global,
    book: &Book,
    a: AdapterNo,
    x: CtxNo,
    h: Handler,
) -> Result<Writes, OutOfMemory>
    ghost o: { Point }
    requires owner { book.now ≡ o.state.owner }
    requires context { x.0 < 16 }
    requires plain { is_plain h ≡ true }
    ensures { IfOk result (λ writes. (words : List ℕ) (others : List Write) → writes ≡ writes_of o.state a.0 x.0 h words others) }
{
    let area = answer_area(x).first.0;
    match h {
        Handler::Initialize => zeros(alloc, &[area, area + 4, area + 8]),
        Handler::Reset => zeros(alloc, &[area]),
        Handler::Isr => zeros(alloc, &[area, area + 4]),
        Handler::PnpEvent => one(alloc, area, event_bytes(book.next_event(a))),
        _ => Ok(Writes::new(alloc)),
    }
}
