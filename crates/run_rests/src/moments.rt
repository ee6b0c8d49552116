//! Moments that are to come.

ghost use Rattle.std.specs.Prelude.{◌≡◌};
ghost use Rattle.legal_run.specs.Owed.{is_barred, most_expirations, next_moment};
ghost use Rattle.miniport.specs.Waiting.{earlier};
ghost use Rattle.miniport_state.specs.Seen.{Point, IsAt, Keeps};
ghost use Rattle.run_course.specs.Shown.{Shows};
ghost use Rattle.run_rests.specs.Moments.{to_come};

use crate::checks::next_check;
use crate::frames::next_stamp;
use crate::wakes::{next_wake, none_sleeps};
use frame_wire::Arrival;
use guest_world::World;
use miniport_state::Adapters;
use owed_handlers::next_alarm;
use owner_book::Book;
use run_course::Course;

/// How many timers and hang checks may expire in a row where nothing is done.
const MOST_EXPIRATIONS: u64 = 8;

/// The earlier of two moments, where there are some.
pub(crate) fn earlier(one: Option<u64>, other: Option<u64>) -> Option<u64>
    ensures { result ≡ earlier one other }
{
    match (one, other) {
        (Some(one), Some(other)) => Some(one.min(other)),
        (Some(one), None) => Some(one),
        (None, other) => other,
    }
}

/// A moment, if it is above the clock.
pub(crate) fn to_come(now: u64, moment: Option<u64>) -> Option<u64>
    ensures { result ≡ to_come now moment }
{
    match moment {
        Some(moment) => { if now < moment { Some(moment) } else { None } }
        None => None,
    }
}

/// Whether no frame and no sleeper is left, and 8 timers and hang checks have expired since something
/// was done.
pub fn is_barred(adapters: &Adapters, book: &Book, frames: &[Arrival], course: &Course) -> bool
    ghost o: { Point }
    requires keeps { Keeps o.inputs o.state adapters.now }
    requires owner { book.now ≡ o.state.owner }
    requires frames { frames.now ≡ o.inputs.frames }
    requires course { Shows o.state course.now }
    ensures { result ≡ is_barred o.inputs o.state }
{
    let none_comes = next_stamp(frames, course).is_none();
    let none_sleeps = none_sleeps(adapters, book);
    let expired = MOST_EXPIRATIONS <= course.expired;
    none_comes && (none_sleeps && expired)
}

/// The earliest moment above the clock of a frame, a sleeper, a hang check or a timer, unless timers
/// and hang checks have expired too often.
pub fn next_moment(
    adapters: &Adapters,
    book: &Book,
    world: &World,
    frames: &[Arrival],
    course: &Course,
) -> Option<u64>
    ghost o: { Point }
    requires kept { IsAt o adapters.now book.now world.now }
    requires frames { frames.now ≡ o.inputs.frames }
    requires course { Shows o.state course.now }
    ensures { result ≡ next_moment o.inputs o.state }
{
    if is_barred(adapters, book, frames, course) {
        return None;
    }
    let frame = to_come(world.clock.now(), next_stamp(frames, course));
    let wake = next_wake(adapters, book, world);
    let check = next_check(adapters, book, world);
    let alarm = next_alarm(adapters, book, world);
    earlier(frame, earlier(wake, earlier(check, alarm)))
}
