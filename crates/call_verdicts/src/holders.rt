//! Who holds a frame that is told, and how many loans are away.

ghost use Rattle.std.specs.Prelude.{◌≡◌, ◌≤◌, ◌<◌, count_by, length, map, IfOk};
ghost use Rattle.owner_machine.specs.State.{at};
ghost use Rattle.owner_machine.specs.Loans.{away_of, wanting, wants};

use crate::filters::wants;
use log_fields::Holders;
use nd_base::{AdapterNo, BindingNo, LoanNo, OutOfMemory};
use owner_book::Book;
use owner_machine::LoanPlace;
use std::alloc::Global;

/// Whether a loan is the adapter's, and away.
fn is_away(book: &Book, a: AdapterNo, j: u64) -> bool
    ensures { result ≡ at (away_of a.0) book.now.loans j }
{
    match book.loan(LoanNo(j)) {
        Some(loan) => !matches!(loan.place, LoanPlace::Home) && loan.adapter.0 == a.0,
        None => false,
    }
}

/// How many loans of an adapter are away.
pub(crate) fn away(book: &Book, a: AdapterNo) -> u64
    ensures { result ≡ count_by (away_of a.0) book.now.loans }
{
    let mut count = 0;
    for j in 0..book.loans() {
        if !is_away(book, a, j) {
            continue;
        }
        count += 1;
    }
    count
}

/// Whether a driver wants a frame.
fn is_wanted_by(book: &Book, a: AdapterNo, bytes: &[u8], b: u8) -> bool
    ensures { result ≡ at (wants a.0 bytes.now) book.now.drivers b }
{
    match book.driver(BindingNo(b)) {
        Some(driver) => wants(driver, a.0, bytes),
        None => false,
    }
}

/// The drivers of the adapter that want a frame, in rising order.
pub(crate) fn wanting(
    alloc: Global,
    book: &Book,
    a: AdapterNo,
    bytes: &[u8],
) -> Result<Holders, OutOfMemory>
    requires { length book.now.drivers ≤ 256 }
    ensures { IfOk result (λ holders. holders ≡ map (λ b. record { 0 = b }) (wanting book.now a.0 bytes.now)) }
{
    let mut holders = Holders::new(alloc);
    for b in 0..book.drivers() {
        if !is_wanted_by(book, a, bytes, b as u8) {
            continue;
        }
        holders.push(BindingNo(b as u8))?;
    }
    Ok(holders)
}
