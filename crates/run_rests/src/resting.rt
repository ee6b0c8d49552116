//! Where nothing can happen before the clock goes on or a driver acts.

ghost use Rattle.std.specs.Prelude.{◌≡◌, ◌&&◌, filter};
ghost use Rattle.std.specs.Option.{option_map};
ghost use Rattle.std.specs.List.{list_any};
ghost use Rattle.owner_machine.specs.State.{at};
ghost use Rattle.legal_run.specs.State.{all_contexts, is_free, is_free_context};
ghost use Rattle.legal_run.specs.Owed.{can_run, first, rests, some_owed};
ghost use Rattle.miniport_state.specs.Seen.{Point, IsAt};
ghost use Rattle.run_course.specs.Shown.{Shows};
ghost use Rattle.run_rests.specs.Entering.{next_enter};

use crate::frames::frame_due;
use frame_wire::Arrival;
use guest_world::World;
use miniport::can_run;
use miniport_state::{Adapters, CONTEXTS};
use nd_base::CtxNo;
use owed_handlers::{Owed, next_owed, owed_laws};
use owner_book::Book;
use owner_machine::Context;
use run_course::Course;

/// Whether no handler is open in a context.
fn is_free(book: &Book, x: CtxNo) -> bool
    ensures { result ≡ at is_free_context book.now.contexts x.0 }
{
    match book.context(x) {
        Some(Context::Free) => true,
        Some(Context::Open { .. }) | None => false,
    }
}

/// The lowest context that is free.
fn first_free(book: &Book) -> Option<CtxNo>
    ensures { option_map (λ x. x.0) result ≡ first (filter (at is_free_context book.now.contexts) all_contexts) }
{
    for n in 0..CONTEXTS as u8 {
        if is_free(book, CtxNo(n)) {
            return Some(CtxNo(n));
        }
    }
    None
}

/// The owed handler that comes first, with the lowest context that is free.
pub fn next_enter(adapters: &Adapters, book: &Book, world: &World) -> Option<(CtxNo, Owed)>
    ghost o: { Point }
    requires { IsAt o adapters.now book.now world.now }
    ensures { option_map (λ e. (e.0.0, e.1)) result ≡ next_enter o.inputs o.state }
{
    match (first_free(book), next_owed(adapters, book, world)) {
        (Some(x), Some(owed)) => Some((x, owed)),
        _ => None,
    }
}

/// Whether an owed handler can be entered.
fn some_enters(adapters: &Adapters, book: &Book, world: &World) -> bool
    ghost o: { Point }
    requires { IsAt o adapters.now book.now world.now }
    ensures { result ≡ (some_owed o.inputs o.state && list_any (is_free o.state) all_contexts) }
{
    owed_laws();
    next_enter(adapters, book, world).is_some()
}

/// Whether a context can run.
fn some_can_run(adapters: &Adapters, book: &Book, world: &World) -> bool
    ghost o: { Point }
    requires { IsAt o adapters.now book.now world.now }
    ensures { result ≡ list_any (can_run o.state) all_contexts }
{
    for n in 0..CONTEXTS as u8 {
        if can_run(adapters, CtxNo(n), book, world) {
            return true;
        }
    }
    false
}

/// Whether no frame is due, no owed handler can be entered, and no context can run.
pub fn rests(
    adapters: &Adapters,
    book: &Book,
    world: &World,
    frames: &[Arrival],
    course: &Course,
) -> bool
    ghost o: { Point }
    requires kept { IsAt o adapters.now book.now world.now }
    requires frames { frames.now ≡ o.inputs.frames }
    requires course { Shows o.state course.now }
    ensures { result ≡ rests o.inputs o.state }
{
    let due = frame_due(frames, course, world);
    let enters = some_enters(adapters, book, world);
    let runs = some_can_run(adapters, book, world);
    !due && (!enters && !runs)
}
