//! Which owed handler comes first.

ghost use Rattle.std.specs.Prelude.{◌≡◌, ◌<◌, ◌&&◌, ◌||◌, ◌==◌, true, not, length};
ghost use Rattle.std.specs.List.{find, list_all, range_with_len};
ghost use Rattle.owner_machine.specs.State.{phase_is, is_stopped};
ghost use Rattle.owner_book.specs.Standings.{IsStanding};
ghost use Rattle.legal_run.specs.State.{is_alive};
ghost use Rattle.legal_run.specs.Owed.{first, is_owed, was_not_entered};
ghost use Rattle.miniport_state.specs.Views.{entrance_of};
ghost use Rattle.miniport_state.specs.Seen.{Point, IsAt};
ghost use Rattle.owed_handlers.specs.Kept.{inputs_of, state_of};
ghost use Rattle.owed_handlers.specs.Order.{owed_by, first_owed};

use crate::progress::was_not_entered;
use crate::rows::owed_row;
use crate::standings::is_alive;
use guest_world::World;
use log_fields::Handler;
use miniport_state::Adapters;
use nd_base::AdapterNo;
use owner_book::{Book, Standing};

/// A handler that is owed.
#[derive(Clone, Copy, PartialEq, Eq)]
pub enum Owed {
    /// DriverEntry.
    Entry,
    /// An adapter's.
    Handler(AdapterNo, Handler),
}

/// The interrupt handlers, which come first; of one adapter in this order.
const AT_ONCE: [Handler; 3] = [Handler::Sync, Handler::Isr, Handler::DisableInterrupt];

/// The other handlers of an adapter, in the order in which they come.
const IN_TURN: [Handler; 15] = [
    Handler::HandleInterrupt,
    Handler::EnableInterrupt,
    Handler::Timer,
    Handler::ReturnPacket,
    Handler::Reset,
    Handler::CancelSend,
    Handler::Query,
    Handler::Set,
    Handler::Send,
    Handler::SendPackets,
    Handler::CheckForHang,
    Handler::PnpEvent,
    Handler::Initialize,
    Handler::Halt,
    Handler::Shutdown,
];

/// A handler is owed to an adapter that lives, and may be open beside what is open.
fn is_owed(
    adapters: &Adapters,
    book: &Book,
    world: &World,
    a: AdapterNo,
    standing: &Standing,
    h: Handler,
) -> bool
    requires standing { IsStanding book.now a.0 standing.now }
    requires lives { is_alive standing.now.phase ≡ true }
    ensures { result ≡ is_owed (inputs_of adapters.now) (state_of adapters.now book.now world.now) a.0 h }
{
    owed_row(adapters, book, world, a, standing, h) && book.may_be_open(a, h)
}

/// The first of some handlers that an adapter owes.
fn first_handler(
    adapters: &Adapters,
    book: &Book,
    world: &World,
    a: AdapterNo,
    standing: &Standing,
    handlers: &[Handler],
) -> Option<Handler>
    requires standing { IsStanding book.now a.0 standing.now }
    requires lives { is_alive standing.now.phase ≡ true }
    ensures { result ≡ find (is_owed (inputs_of adapters.now) (state_of adapters.now book.now world.now) a.0) handlers.now }
{
    for h in handlers {
        if is_owed(adapters, book, world, a, standing, *h) {
            return Some(*h);
        }
    }
    None
}

/// The first of some handlers that an adapter owes, if it is there and lives.
fn handler_of(
    adapters: &Adapters,
    book: &Book,
    world: &World,
    a: AdapterNo,
    handlers: &[Handler],
) -> Option<Handler>
    ensures { result ≡ find (is_owed (inputs_of adapters.now) (state_of adapters.now book.now world.now) a.0) handlers.now }
{
    if book.adapters() <= usize::from(a.0) {
        return None;
    }
    let standing = book.standing(a);
    if is_alive(standing.phase) {
        first_handler(adapters, book, world, a, &standing, handlers)
    } else {
        None
    }
}

/// The first of some handlers that is owed: the lowest adapter's.
fn first_of(adapters: &Adapters, book: &Book, world: &World, handlers: &[Handler]) -> Option<Owed>
    requires { length adapters.now.charges.items < 256 }
    ensures { result ≡ first (owed_by (inputs_of adapters.now) (state_of adapters.now book.now world.now) handlers.now
        (range_with_len 0 (length adapters.now.charges.items))) }
{
    for n in 0..adapters.charges.len() {
        let a = AdapterNo(n as u8);
        if let Some(h) = handler_of(adapters, book, world, a, handlers) {
            return Some(Owed::Handler(a, h));
        }
    }
    None
}

/// An adapter is there, and stopped.
fn is_stopped(book: &Book, a: AdapterNo) -> bool
    ensures { result ≡ phase_is is_stopped book.now a.0 }
{
    let there = usize::from(a.0) < book.adapters();
    let stands = book.stands(a);
    there && !stands
}

/// So many adapters are stopped.
fn all_stopped(book: &Book, count: usize) -> bool
    requires { count < 256 }
    ensures { result ≡ list_all (phase_is is_stopped book.now) (range_with_len 0 count) }
{
    for n in 0..count {
        if !is_stopped(book, AdapterNo(n as u8)) {
            return false;
        }
    }
    true
}

/// DriverEntry is owed.
fn owes_entry(adapters: &Adapters, book: &Book) -> bool
    requires { length adapters.now.charges.items < 256 }
    ensures { result ≡ (was_not_entered (entrance_of adapters.now.entrance) && ((length adapters.now.charges.items == 0)
        || not (list_all (phase_is is_stopped book.now) (range_with_len 0 (length adapters.now.charges.items))))) }
{
    let count = adapters.charges.len();
    let fresh = was_not_entered(adapters);
    let stopped = all_stopped(book, count);
    fresh && (count == 0 || !stopped)
}

/// The handler that is to be entered next, where a context is free and no frame is due: of those that
/// are owed, and may be open beside what is open, the one that comes first.
pub fn next_owed(adapters: &Adapters, book: &Book, world: &World) -> Option<Owed>
    ghost o: { Point }
    requires { IsAt o adapters.now book.now world.now }
    ensures { result ≡ first_owed o.inputs o.state }
{
    let urgent = first_of(adapters, book, world, &AT_ONCE);
    if urgent.is_some() {
        return urgent;
    }
    if owes_entry(adapters, book) {
        return Some(Owed::Entry);
    }
    first_of(adapters, book, world, &IN_TURN)
}
