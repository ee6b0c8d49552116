//! What a driver's command needs, by the book alone.

ghost use Rattle.std.specs.Prelude.{◌≡◌, ◌==◌, true, None, count_by, length, nat_lt, not};
ghost use Rattle.owner_machine.specs.State.{at, bound};
ghost use Rattle.owner_machine.specs.Adapters.{may_bind, may_cancel, may_signal, may_unbind, waits_for};
ghost use Rattle.owner_machine.specs.Loans.{holds};
ghost use Rattle.owner_machine.specs.Must.{owner_must};
ghost use Rattle.owner_machine.specs.Packets.{may_send, slot_of};

use call_log::Entry;
use nd_base::{AdapterNo, BindingNo, Bytes, LoanNo};
use owner_book::{Book, WhichLoans, WhichPackets, WhichRequests};
use owner_machine::Binding;
use owner_rows::is_held_by;
use std::alloc::Global;

/// Whether there is a driver of this number: it may wait, and be done.
pub fn is_driver(book: &Book, driver: BindingNo) -> bool
    ensures { result ≡ nat_lt driver.0 (length book.now.drivers) }
{
    usize::from(driver.0) < book.drivers()
}

/// Whether a driver is bound: then it may ask.
pub fn is_bound(book: &Book, driver: BindingNo) -> bool
    ensures { result ≡ bound book.now driver.0 }
{
    match book.driver(driver) {
        Some(row) => matches!(row.binding, Binding::Bound),
        None => false,
    }
}

/// Whether a driver may bind to an adapter: it never did, and the adapter is its own.
pub fn may_bind(book: &Book, driver: BindingNo, adapter: AdapterNo) -> bool
    ensures { result ≡ may_bind book.now driver.0 adapter.0 }
{
    match book.driver(driver) {
        Some(row) => matches!(row.binding, Binding::Unbound) && row.adapter.0 == adapter.0,
        None => false,
    }
}

/// Whether a driver waits for a packet or an answer, or holds a loan still.
pub fn still_holds(book: &Book, driver: BindingNo) -> bool
    ensures { result ≡ not (waits_for book.now driver.0 == 0) }
{
    book.has_packet(WhichPackets::SentBy(driver.0))
        || book.has_loan(WhichLoans::HeldBy(driver.0))
        || book.has_request(WhichRequests::AskedBy(driver.0))
}

/// Whether a driver may unbind: it is bound, and nothing of it is outstanding.
pub fn may_unbind(book: &Book, driver: BindingNo) -> bool
    ensures { result ≡ may_unbind book.now driver.0 }
{
    is_bound(book, driver) && !still_holds(book, driver)
}

/// Whether 256 send slots of a driver are in use: no packet of it can be sent.
pub fn has_no_slot(book: &Book, driver: BindingNo) -> bool
    ensures { result ≡ not (nat_lt (count_by (slot_of driver.0) book.now.packets) 256) }
{
    book.slots(driver) >= 256
}

/// Whether a driver may send a frame of so many bytes: it is bound, they are 14 to 1,514, and a send slot
/// is free.
pub fn may_send(book: &Book, driver: BindingNo, bytes: usize) -> bool
    ensures { result ≡ may_send book.now driver.0 (length book.now.packets) bytes }
{
    is_bound(book, driver) && (14 <= bytes && (bytes <= 1514 && !has_no_slot(book, driver)))
}

/// Whether a driver may cancel its packets of an id: it is bound, and the id is not 0.
pub fn may_cancel(book: &Book, driver: BindingNo, id: u32) -> bool
    ensures { result ≡ may_cancel book.now driver.0 id }
{
    is_bound(book, driver) && id != 0
}

/// Whether a driver holds a loan still, so that it may return it.
pub fn may_give_back(book: &Book, driver: BindingNo, loan: LoanNo) -> bool
    ensures { result ≡ at (holds driver.0) book.now.loans loan.0 }
{
    match book.loan(loan) {
        Some(row) => is_held_by(row, driver.0),
        None => false,
    }
}

/// Whether an event of a bound driver is taken: its adapter lives, and its miniport has a handler for
/// events.
pub fn takes_event(book: &Book, alloc: Global, driver: BindingNo) -> bool
    requires { owner_must book.now ≡ None }
    ensures { result ≡ may_signal book.now driver.0 0 true }
{
    let event = Entry::Event {
        driver,
        number: 0,
        bytes: Bytes::new(alloc),
        taken: true,
    };
    book.rule_against(&event).is_none()
}
