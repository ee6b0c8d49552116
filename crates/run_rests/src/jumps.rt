//! What may stand by itself where nothing else happens: jumps of the clock, silence, and quiet of a
//! driver.

ghost use Rattle.std.specs.Prelude.{◌≡◌, ℕ};
ghost use Rattle.std.specs.Option.{option_map};
ghost use Rattle.legal_run.specs.Owed.{is_idle, is_moment, may_be_quiet, may_be_silent, may_jump};
ghost use Rattle.miniport_state.specs.Seen.{Point, IsAt};
ghost use Rattle.run_course.specs.Shown.{Shows};
ghost use Rattle.run_rests.specs.Drivers.{AreDrivers};
ghost use Rattle.run_rests.specs.Vain.{nothing_comes};

use crate::endings::{all_finished, silent_one};
use crate::moments::next_moment;
use crate::resting::rests;
use crate::waiting::{all_wait, waits};
use frame_wire::Arrival;
use guest_world::World;
use miniport_state::Adapters;
use nd_base::{AdapterNo, BindingNo};
use owner_book::Book;
use run_course::Course;

/// The moment to which the clock may go on.
pub fn next_jump(
    adapters: &Adapters,
    book: &Book,
    world: &World,
    frames: &[Arrival],
    course: &Course,
) -> Option<u64>
    ghost o: { Point }
    requires kept { IsAt o adapters.now book.now world.now }
    requires frames { frames.now ≡ o.inputs.frames }
    requires course { Shows o.state course.now }
    requires drivers { AreDrivers o.inputs o.state }
    ensures { (m : ℕ) → may_jump o.inputs o.state m ≡ is_moment m result }
{
    let resting = rests(adapters, book, world, frames, course);
    let waiting = all_wait(book, course);
    if resting && waiting {
        next_moment(adapters, book, world, frames, course)
    } else {
        None
    }
}

/// Whether nothing happens any more.
fn is_idle(
    adapters: &Adapters,
    book: &Book,
    world: &World,
    frames: &[Arrival],
    course: &Course,
) -> bool
    ghost o: { Point }
    requires kept { IsAt o adapters.now book.now world.now }
    requires frames { frames.now ≡ o.inputs.frames }
    requires course { Shows o.state course.now }
    requires drivers { AreDrivers o.inputs o.state }
    ensures { result ≡ is_idle o.inputs o.state }
{
    let resting = rests(adapters, book, world, frames, course);
    let waiting = all_wait(book, course);
    let never = next_moment(adapters, book, world, frames, course).is_none();
    resting && (waiting && never)
}

/// The adapter that may be stopped because nothing happens any more.
pub fn silent(
    adapters: &Adapters,
    book: &Book,
    world: &World,
    frames: &[Arrival],
    course: &Course,
) -> Option<AdapterNo>
    ghost o: { Point }
    requires kept { IsAt o adapters.now book.now world.now }
    requires frames { frames.now ≡ o.inputs.frames }
    requires course { Shows o.state course.now }
    requires drivers { AreDrivers o.inputs o.state }
    ensures { (a : ℕ) → may_be_silent o.inputs o.state a ≡ is_moment a (option_map (λ n. n.0) result) }
{
    if is_idle(adapters, book, world, frames, course) {
        silent_one(adapters, book)
    } else {
        None
    }
}

/// Whether neither the clock nor the stop of an adapter helps a driver that waits; or, where not every
/// driver waits, every adapter is finished.
fn nothing_comes(
    adapters: &Adapters,
    book: &Book,
    world: &World,
    frames: &[Arrival],
    course: &Course,
) -> bool
    ghost o: { Point }
    requires kept { IsAt o adapters.now book.now world.now }
    requires frames { frames.now ≡ o.inputs.frames }
    requires course { Shows o.state course.now }
    requires drivers { AreDrivers o.inputs o.state }
    ensures { result ≡ nothing_comes o.inputs o.state }
{
    if all_wait(book, course) {
        let never = next_moment(adapters, book, world, frames, course).is_none();
        let idle = silent_one(adapters, book).is_none();
        never && idle
    } else {
        all_finished(adapters, book)
    }
}

/// Whether a driver may hear that it waits in vain.
pub fn is_quiet(
    adapters: &Adapters,
    book: &Book,
    world: &World,
    frames: &[Arrival],
    course: &Course,
    b: BindingNo,
) -> bool
    ghost o: { Point }
    requires kept { IsAt o adapters.now book.now world.now }
    requires frames { frames.now ≡ o.inputs.frames }
    requires course { Shows o.state course.now }
    requires drivers { AreDrivers o.inputs o.state }
    ensures { result ≡ may_be_quiet o.inputs o.state b.0 }
{
    let resting = rests(adapters, book, world, frames, course);
    let waiting = waits(book, course, b);
    let nothing = nothing_comes(adapters, book, world, frames, course);
    resting && (waiting && nothing)
}
