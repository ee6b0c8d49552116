//! Which drivers wait.

ghost use Rattle.std.specs.Prelude.{◌≡◌, ◌==◌, count_by, nat_lt, slice_index_or};
ghost use Rattle.owner_machine.specs.State.{adapter_of};
ghost use Rattle.owner_machine.specs.Packets.{sent_by, slot_of};
ghost use Rattle.owner_machine.specs.Requests.{asked_by};
ghost use Rattle.legal_run.specs.State.{State, silent};
ghost use Rattle.legal_run.specs.Owed.{all_wait, holds, is_up, waits, waits_or_is_done};
ghost use Rattle.miniport_state.specs.Seen.{Point};
ghost use Rattle.run_course.specs.Shown.{Shows};
ghost use Rattle.run_rests.specs.Drivers.{AreDrivers};

use crate::phases::is_starting;
use call_log::Condition;
use nd_base::{AdapterNo, BindingNo};
use owner_book::{Book, WhichPackets, WhichRequests};
use run_course::Course;

/// How many send slots a driver has.
const SLOTS: u64 = 256;

/// The number of no adapter.
const NO_ADAPTER: AdapterNo = AdapterNo(255);

/// The adapter of a driver.
fn adapter_of(book: &Book, b: BindingNo) -> AdapterNo
    ensures { result.0 ≡ adapter_of book.now b.0 }
{
    match book.driver(b) {
        Some(driver) => driver.adapter,
        None => NO_ADAPTER,
    }
}

/// Whether the adapter of a driver is not starting any more.
fn is_up(book: &Book, b: BindingNo) -> bool
    ghost s: { State }
    requires { book.now ≡ s.owner }
    ensures { result ≡ is_up s b.0 }
{
    !is_starting(book, adapter_of(book, b))
}

/// Whether every packet that a driver sent has ended.
fn none_sent(book: &Book, b: BindingNo) -> bool
    ensures { result ≡ (count_by (sent_by b.0) book.now.packets == 0) }
{
    !book.has_packet(WhichPackets::SentBy(b.0))
}

/// Whether every request that a driver asked is answered.
fn none_asked(book: &Book, b: BindingNo) -> bool
    ensures { result ≡ (count_by (asked_by b.0) book.now.requests == 0) }
{
    !book.has_request(WhichRequests::AskedBy(b.0))
}

/// Whether a send slot of a driver is free.
fn has_room(book: &Book, b: BindingNo) -> bool
    ensures { result ≡ nat_lt (count_by (slot_of b.0) book.now.packets) 256 }
{
    book.slots(b) < SLOTS
}

/// How many frames a driver was told.
fn frames_told(course: &Course, b: BindingNo) -> u64
    ensures { result ≡ (slice_index_or course.now.drivers.items b.0 silent).frames }
{
    match course.drivers.get(usize::from(b.0)) {
        Some(hearing) => hearing.frames,
        None => 0,
    }
}

/// What a driver awaits.
fn awaited(course: &Course, b: BindingNo) -> Option<Condition>
    ensures { result ≡ (slice_index_or course.now.drivers.items b.0 silent).awaits }
{
    match course.drivers.get(usize::from(b.0)) {
        Some(hearing) => hearing.awaits,
        None => None,
    }
}

/// Whether a driver is done.
fn is_done(course: &Course, b: BindingNo) -> bool
    ensures { result ≡ (slice_index_or course.now.drivers.items b.0 silent).done }
{
    match course.drivers.get(usize::from(b.0)) {
        Some(hearing) => hearing.done,
        None => false,
    }
}

/// Whether what a driver may await has come.
pub fn holds(book: &Book, course: &Course, b: BindingNo, what: Condition) -> bool
    ghost s: { State }
    requires owner { book.now ≡ s.owner }
    requires course { Shows s course.now }
    ensures { result ≡ holds s b.0 what }
{
    match what {
        Condition::Up => is_up(book, b),
        Condition::Sent => none_sent(book, b),
        Condition::Replies => none_asked(book, b),
        Condition::Frames(count) => count <= frames_told(course, b),
        Condition::Room => has_room(book, b),
        Condition::All => {
            let sent = none_sent(book, b);
            let asked = none_asked(book, b);
            sent && asked
        }
    }
}

/// Whether a driver awaits something that has not come.
pub fn waits(book: &Book, course: &Course, b: BindingNo) -> bool
    ghost s: { State }
    requires owner { book.now ≡ s.owner }
    requires course { Shows s course.now }
    ensures { result ≡ waits s b.0 }
{
    match awaited(course, b) {
        Some(what) => !holds(book, course, b, what),
        None => false,
    }
}

/// Whether a driver is done, or awaits something that has not come.
fn waits_or_is_done(book: &Book, course: &Course, b: BindingNo) -> bool
    ghost s: { State }
    requires owner { book.now ≡ s.owner }
    requires course { Shows s course.now }
    ensures { result ≡ waits_or_is_done s b.0 }
{
    let waiting = waits(book, course, b);
    is_done(course, b) || waiting
}

/// Whether every driver is done, or awaits something that has not come.
pub fn all_wait(book: &Book, course: &Course) -> bool
    ghost o: { Point }
    requires owner { book.now ≡ o.state.owner }
    requires course { Shows o.state course.now }
    requires drivers { AreDrivers o.inputs o.state }
    ensures { result ≡ all_wait o.inputs o.state }
{
    for n in 0..book.drivers() {
        if !waits_or_is_done(book, course, BindingNo(n as u8)) {
            return false;
        }
    }
    true
}
