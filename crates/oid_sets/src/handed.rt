//! What a set hands to a miniport.

ghost use Rattle.std.specs.Prelude.{◌≡◌, ◌≤◌, ◌==◌, if◌then◌else◌, length, IfOk, OnOk};
ghost use Rattle.std.specs.List.{flat_map};
ghost use Rattle.std.specs.Int.{to_le_bytes, w32};
ghost use Rattle.owner_machine.specs.Requests.{little_endian};
ghost use Rattle.legal_run.specs.State.{State};
ghost use Rattle.legal_run.specs.Enters.{addresses, drivers_of_adapter, joined_lists, list_of, set_bytes, united};
ghost use Rattle.oid_sets.specs.Joins.{all_added};

use crate::addresses::{add_list, bytes_of};
use crate::drivers::{drivers_of, filter_of, list_of};
use log_fields::Question;
use nd_base::{AdapterNo, BindingNo, Bytes, OutOfMemory};
use owner_book::Book;
use owner_rules::{CURRENT_PACKET_FILTER, MULTICAST_LIST, little_endian};
use std::alloc::Global;

/// The union of the filters of some drivers, the new one in place of the driver's own that sets it.
#[tactic(auto, unfolding(legal_run::specs::Enters::united))]
fn united(book: &Book, b: BindingNo, value: u32, drivers: &[u8]) -> u32
    ensures { (s : State) → book.now ≡ s.owner → result ≡ united s b.0 value drivers.now }
{
    match drivers {
        [] => 0,
        [d, rest @ ..] => filter_of(book, b, value, *d) | united(book, b, value, rest),
    }
}

/// Puts the addresses of the lists of some drivers behind those that are there.
fn add_lists(
    there: &mut Vec<[u8; 6]>,
    book: &Book,
    b: BindingNo,
    list: &[u8],
    drivers: &[u8],
) -> Result<(), OutOfMemory>
    ghost s: { State }
    requires { book.now ≡ s.owner }
    ensures { OnOk result (there.new.items ≡ all_added there.old.items (flat_map (λ d. addresses (if d == b.0 then list.now else list_of s d)) drivers.now)) }
{
    for d in drivers {
        add_list(there, list_of(book, b, list, *d))?;
    }
    Ok(())
}

/// All addresses of the lists of some drivers, each once, the new list in place of the driver's own
/// that sets it.
fn joined(
    alloc: Global,
    book: &Book,
    b: BindingNo,
    list: &[u8],
    drivers: &[u8],
) -> Result<Bytes, OutOfMemory>
    ghost s: { State }
    requires { book.now ≡ s.owner }
    ensures { IfOk result (λ bytes. bytes ≡ joined_lists s b.0 list.now drivers.now) }
{
    let mut there = Vec::new(alloc);
    add_lists(&mut there, book, b, list, drivers)?;
    bytes_of(alloc, there.as_slice())
}

/// The union of an adapter's filters, in the bytes of a word.
fn filter_bytes(
    alloc: Global,
    book: &Book,
    a: AdapterNo,
    b: BindingNo,
    bytes: &[u8],
) -> Result<Bytes, OutOfMemory>
    ghost s: { State }
    requires owner { book.now ≡ s.owner }
    requires few { length book.now.drivers ≤ 256 }
    ensures { IfOk result (λ word. word ≡ to_le_bytes w32 (united s b.0 (little_endian bytes.now) (drivers_of_adapter s a.0))) }
{
    let Some(value) = little_endian(bytes) else {
        return Err(OutOfMemory);
    };
    let drivers = drivers_of(alloc, book, a)?;
    let filter = united(book, b, value, drivers.as_slice());
    Bytes::copy(alloc, &filter.to_le_bytes())
}

/// All addresses of an adapter's lists.
fn list_bytes(
    alloc: Global,
    book: &Book,
    a: AdapterNo,
    b: BindingNo,
    list: &[u8],
) -> Result<Bytes, OutOfMemory>
    ghost s: { State }
    requires owner { book.now ≡ s.owner }
    requires few { length book.now.drivers ≤ 256 }
    ensures { IfOk result (λ bytes. bytes ≡ joined_lists s b.0 list.now (drivers_of_adapter s a.0)) }
{
    let drivers = drivers_of(alloc, book, a)?;
    joined(alloc, book, b, list, drivers.as_slice())
}

/// The bytes that a driver's question hands to the miniport of an adapter: none of a query; of a set
/// of the packet filter the union of all filters, of the multicast list all lists, else its own.
///
/// # Errors
/// [`OutOfMemory`] where no memory is left, or a filter is no word.
pub fn set_bytes(
    alloc: Global,
    book: &Book,
    a: AdapterNo,
    b: BindingNo,
    question: &Question,
) -> Result<Bytes, OutOfMemory>
    ghost s: { State }
    requires owner { book.now ≡ s.owner }
    requires few { length book.now.drivers ≤ 256 }
    ensures { IfOk result (λ bytes. bytes ≡ set_bytes s a.0 b.0 question.now) }
{
    match question {
        Question::Query { .. } => Ok(Bytes::new(alloc)),
        Question::Set { oid, bytes } => {
            if *oid == CURRENT_PACKET_FILTER {
                filter_bytes(alloc, book, a, b, bytes.as_slice())
            } else if *oid == MULTICAST_LIST {
                list_bytes(alloc, book, a, b, bytes.as_slice())
            } else {
                bytes.copied(alloc)
            }
        }
    }
}
