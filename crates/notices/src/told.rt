//! What an entry tells a driver.

ghost use Rattle.std.specs.Prelude.{◌≡◌, ◌==◌, if◌then◌else◌, Some, None};
ghost use Rattle.std.specs.List.{list_any};
ghost use Rattle.owner_machine.specs.State.{adapter_of};
ghost use Rattle.notices.specs.Notices.{framed, is_asker, is_sender, tells_by};

use call_log::{Cause, Entry, Holders};
use nd_base::{AdapterNo, BindingNo, LoanNo, PacketNo, RequestNo, Status};
use owner_book::Book;

/// What a driver is told.
#[derive(Clone, Copy, PartialEq, Eq)]
pub enum Told {
    /// A packet that it sent was completed with a status.
    Completed(PacketNo, Status),
    /// It got a frame on loan.
    Lent(LoanNo),
    /// It got a copy of the frame of a loan.
    Copied(LoanNo),
    /// A request of it was answered with a status.
    Answered(RequestNo, Status),
    /// Its adapter was stopped.
    Stopped(Cause),
}

/// Whether a driver sent a packet.
fn is_sender(book: &Book, driver: BindingNo, packet: PacketNo) -> bool
    ensures { result ≡ is_sender book.now driver.0 packet.0 }
{
    match book.packet(packet) {
        Some(row) => row.driver.0 == driver.0,
        None => false,
    }
}

/// Whether a driver asked a request.
fn is_asker(book: &Book, driver: BindingNo, request: RequestNo) -> bool
    ensures { result ≡ is_asker book.now driver.0 request.0 }
{
    match book.request(request) {
        Some(row) => row.driver.0 == driver.0,
        None => false,
    }
}

/// Whether a driver is among the holders of a frame.
fn is_holder(holders: &[BindingNo], driver: BindingNo) -> bool
    ensures { result ≡ list_any (λ h. h.0 == driver.0) holders.now }
{
    holders.iter().any(|holder| holder.0 == driver.0)
}

/// Whether a driver is bound to an adapter.
fn is_of(book: &Book, driver: BindingNo, adapter: AdapterNo) -> bool
    ensures { result ≡ (adapter_of book.now driver.0 == adapter.0) }
{
    match book.driver(driver) {
        Some(row) => row.adapter.0 == adapter.0,
        None => adapter.0 == 255,
    }
}

/// A driver gets a frame on loan, or a copy of it.
fn framed(loan: LoanNo, copied: bool) -> Told
    ensures { result ≡ framed loan copied }
{
    if copied {
        Told::Copied(loan)
    } else {
        Told::Lent(loan)
    }
}

/// What is told, if it is this driver that is told it.
fn if_told(test: bool, told: Told) -> Option<Told>
    ensures { result ≡ (if test then Some told else None) }
{
    if test { Some(told) } else { None }
}

/// What the holders of a frame are told.
fn told_of_frame(driver: BindingNo, loan: LoanNo, holders: &Holders, copied: bool) -> Option<Told>
    ensures { result ≡ (if list_any (λ h. h.0 == driver.0) holders.now then Some (framed loan copied) else None) }
{
    if_told(is_holder(holders.as_slice(), driver), framed(loan, copied))
}

/// What an entry tells a driver, which is bound or not.
pub(crate) fn told_by(book: &Book, driver: BindingNo, bound: bool, entry: &Entry) -> Option<Told>
    ensures { result ≡ tells_by book.now driver bound entry.now }
{
    match entry {
        Entry::Complete { packet, status } => if_told(
            is_sender(book, driver, *packet),
            Told::Completed(*packet, *status),
        ),
        Entry::Indicate {
            loan,
            holders,
            copied,
            ..
        } => told_of_frame(driver, *loan, holders, *copied),
        Entry::Answer {
            request,
            status,
            ..
        } => if_told(
            is_asker(book, driver, *request),
            Told::Answered(*request, *status),
        ),
        Entry::Stop { adapter, cause } => if_told(
            bound && is_of(book, driver, *adapter),
            Told::Stopped(*cause),
        ),
        _ => None,
    }
}
