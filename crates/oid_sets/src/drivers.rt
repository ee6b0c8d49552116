//! The drivers of an adapter, their filters and their lists.

ghost use Rattle.std.specs.Prelude.{◌≡◌, ◌≤◌, ◌==◌, if◌then◌else◌, length, IfOk};
ghost use Rattle.owner_machine.specs.State.{at};
ghost use Rattle.legal_run.specs.State.{State};
ghost use Rattle.legal_run.specs.Enters.{drivers_of_adapter, filter_of, list_of};

use nd_base::{AdapterNo, BindingNo, OutOfMemory};
use owner_book::Book;
use std::alloc::Global;

/// Whether a driver is an adapter's.
fn is_of(book: &Book, a: AdapterNo, d: BindingNo) -> bool
    ensures { result ≡ at (λ driver. driver.adapter.0 == a.0) book.now.drivers d.0 }
{
    match book.driver(d) {
        Some(driver) => driver.adapter.0 == a.0,
        None => false,
    }
}

/// The drivers of an adapter, by number.
pub(crate) fn drivers_of(alloc: Global, book: &Book, a: AdapterNo) -> Result<Vec<u8>, OutOfMemory>
    ghost s: { State }
    requires owner { book.now ≡ s.owner }
    requires few { length book.now.drivers ≤ 256 }
    ensures { IfOk result (λ drivers. drivers.items ≡ drivers_of_adapter s a.0) }
{
    let mut drivers = Vec::new(alloc);
    for n in 0..book.drivers() {
        let d = n as u8;
        if is_of(book, a, BindingNo(d)) {
            drivers.push(d)?;
        }
    }
    Ok(drivers)
}

/// A driver's filter; the new one of the driver that sets it.
pub(crate) fn filter_of(book: &Book, b: BindingNo, value: u32, d: u8) -> u32
    ensures { (s : State) → book.now ≡ s.owner → result ≡ (if d == b.0 then value else filter_of s d) }
{
    if d == b.0 {
        return value;
    }
    match book.driver(BindingNo(d)) {
        Some(driver) => driver.filter,
        None => 0,
    }
}

/// A driver's list; the new one of the driver that sets it.
pub(crate) fn list_of<'a>(book: &'a Book, b: BindingNo, list: &'a [u8], d: u8) -> &'a [u8]
    ghost s: { State }
    requires { book.now ≡ s.owner }
    ensures { result.now ≡ (if d == b.0 then list.now else list_of s d) }
{
    if d == b.0 {
        return list;
    }
    match book.driver(BindingNo(d)) {
        Some(driver) => driver.list.as_slice(),
        None => &[],
    }
}
