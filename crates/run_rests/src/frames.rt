//! The next frame of the wire.

ghost use Rattle.std.specs.Prelude.{◌≡◌, slice_get};
ghost use Rattle.std.specs.Option.{option_map};
ghost use Rattle.legal_run.specs.Owed.{frame_due};
ghost use Rattle.miniport_state.specs.Seen.{Point};
ghost use Rattle.run_course.specs.Shown.{Shows};

use frame_wire::Arrival;
use guest_world::World;
use run_course::Course;

/// The stamp of the next frame, if one is left.
pub(crate) fn next_stamp(frames: &[Arrival], course: &Course) -> Option<u64>
    ghost o: { Point }
    requires frames { frames.now ≡ o.inputs.frames }
    requires course { Shows o.state course.now }
    ensures { result ≡ option_map (λ f. f.stamp) (slice_get o.inputs.frames o.state.come) }
{
    match frames.get(course.come as usize) {
        Some(frame) => Some(frame.stamp),
        None => None,
    }
}

/// Whether the next frame's stamp is not above the clock.
pub fn frame_due(frames: &[Arrival], course: &Course, world: &World) -> bool
    ghost o: { Point }
    requires frames { frames.now ≡ o.inputs.frames }
    requires course { Shows o.state course.now }
    requires world { world.now ≡ o.state.world }
    ensures { result ≡ frame_due o.inputs o.state }
{
    match next_stamp(frames, course) {
        Some(stamp) => stamp <= world.clock.now(),
        None => false,
    }
}
