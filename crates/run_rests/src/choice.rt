//! What comes next where nothing must.

ghost use Rattle.std.specs.Prelude.{◌≡◌, true};
ghost use Rattle.legal_run.specs.Owed.{rests};
ghost use Rattle.miniport_state.specs.Seen.{Point, IsAt};
ghost use Rattle.run_course.specs.Shown.{Shows};
ghost use Rattle.run_rests.specs.Drivers.{AreDrivers};
ghost use Rattle.run_rests.specs.Order.{IsDue};

use crate::frames::frame_due;
use crate::jumps::{is_quiet, next_jump, silent};
use crate::resting::next_enter;
use frame_wire::Arrival;
use guest_world::World;
use miniport::ready;
use miniport_state::Adapters;
use nd_base::{AdapterNo, BindingNo, CtxNo};
use owed_handlers::{Owed, owed_laws};
use owner_book::Book;
use run_course::Course;

/// What comes next.
#[derive(Clone, Copy, PartialEq, Eq)]
pub enum Due {
    /// The next frame.
    Frame,
    /// An owed handler is entered in a context.
    Enter(CtxNo, Owed),
    /// A context goes on.
    GoOn(CtxNo),
    /// The clock goes on to a moment.
    Jump(u64),
    /// An adapter is stopped, because nothing happens any more.
    Stop(AdapterNo),
    /// The driver that asks hears that it waits in vain.
    Quiet(BindingNo),
    /// Nothing, before a driver acts.
    Nothing,
}

/// What comes next where a run rests.
fn at_rest(
    adapters: &Adapters,
    book: &Book,
    world: &World,
    frames: &[Arrival],
    course: &Course,
    who: Option<BindingNo>,
) -> Due
    ghost o: { Point }
    requires kept { IsAt o adapters.now book.now world.now }
    requires frames { frames.now ≡ o.inputs.frames }
    requires course { Shows o.state course.now }
    requires drivers { AreDrivers o.inputs o.state }
    requires rests { rests o.inputs o.state ≡ true }
    ensures { IsDue o.inputs o.state adapters.now who result }
{
    if let Some(moment) = next_jump(adapters, book, world, frames, course) {
        return Due::Jump(moment);
    }
    if let Some(a) = silent(adapters, book, world, frames, course) {
        return Due::Stop(a);
    }
    if let Some(b) = who {
        if is_quiet(adapters, book, world, frames, course, b) {
            return Due::Quiet(b);
        }
    }
    Due::Nothing
}

/// What comes next where nothing must: a frame that is due, an owed handler, the context that ran
/// longest ago, a jump of the clock, the stop of an adapter, or that the driver who asks waits in vain.
pub fn comes_next(
    adapters: &Adapters,
    book: &Book,
    world: &World,
    frames: &[Arrival],
    course: &Course,
    who: Option<BindingNo>,
) -> Due
    ghost o: { Point }
    requires kept { IsAt o adapters.now book.now world.now }
    requires frames { frames.now ≡ o.inputs.frames }
    requires course { Shows o.state course.now }
    requires drivers { AreDrivers o.inputs o.state }
    ensures { IsDue o.inputs o.state adapters.now who result }
{
    owed_laws();
    if frame_due(frames, course, world) {
        return Due::Frame;
    }
    if let Some((x, owed)) = next_enter(adapters, book, world) {
        return Due::Enter(x, owed);
    }
    if let Some(x) = ready(adapters, book, world) {
        return Due::GoOn(x);
    }
    at_rest(adapters, book, world, frames, course, who)
}
