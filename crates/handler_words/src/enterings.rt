//! Handlers that can be entered.

ghost use Rattle.std.specs.Prelude.{◌≡◌, ◌<◌, true, false, IfOk};
ghost use Rattle.legal_run.specs.State.{is_free};
ghost use Rattle.legal_run.specs.Owed.{frame_due};
ghost use Rattle.miniport_state.specs.Seen.{IsAt, Point};
ghost use Rattle.handler_words.specs.Given.{is_plain};
ghost use Rattle.handler_words.specs.Ready.{IsReady, MayBeOf, number_of};

use crate::subjects::subject;
use crate::words::words_of;
use crate::writes::writes_of;
use guest_world::World;
use handler_entries::{Entering, due_of};
use log_fields::Handler;
use miniport_state::Adapters;
use nd_base::{AdapterNo, CtxNo, OutOfMemory};
use owner_book::Book;
use std::alloc::Global;

/// The number of an adapter; 0 of none.
fn number_of(a: Option<AdapterNo>) -> AdapterNo
    ensures { result.0 ≡ number_of a }
{
    match a {
        Some(a) => a,
        None => AdapterNo(0),
    }
}

/// A handler that is to be entered for an adapter in a free context, DriverEntry for none: with its
/// argument words, what is written for it, and what it is about.
///
/// # Errors
/// [`OutOfMemory`] where no memory is left, or a word can't tell the length of an event.
pub fn entering(
    alloc: Global,
    adapters: &Adapters,
    book: &Book,
    world: &World,
    a: Option<AdapterNo>,
    x: CtxNo,
    h: Handler,
) -> Result<Entering, OutOfMemory>
    ghost o: { Point }
    requires at { IsAt o adapters.now book.now world.now }
    requires adapter { MayBeOf a h }
    requires context { x.0 < 16 }
    requires free { is_free o.state x.0 ≡ true }
    requires frames { frame_due o.inputs o.state ≡ false }
    requires plain { is_plain h ≡ true }
    ensures { IfOk result (IsReady o a x h) }
{
    let n = number_of(a);
    let words = words_of(alloc, adapters, book, world, n, x, h)?;
    let writes = writes_of(alloc, book, n, x, h)?;
    let due = due_of(adapters, book, world, n);
    let subject = subject(alloc, h, due.caller)?;
    Ok(Entering {
        adapter: a,
        handler: h,
        words,
        writes,
        subject,
    })
}
