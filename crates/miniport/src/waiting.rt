//! Which contexts can run, and until when the others sleep.

ghost use Rattle.std.specs.Prelude.{◌≡◌, ◌≤◌, ◌<◌, ℕ, true, false, None, Some, IfSome, IfNone, length, slice_index_or};
ghost use Rattle.std.specs.Option.{option_map};
ghost use Rattle.legal_run.specs.State.{State, no_context};
ghost use Rattle.legal_run.specs.Owed.{can_run, check_of, has_come};
ghost use Rattle.miniport_state.specs.Views.{wait_of};
ghost use Rattle.miniport_state.specs.Seen.{Point, IsAt, Keeps};
ghost use Rattle.miniport.specs.Waiting.{check_in, earlier, is_earlier, wake_at, when_ran};

use crate::contexts::{is_open, is_running};
use call_log::Handler;
use guest_world::World;
use miniport_state::{Adapters, CONTEXTS, Stage, Wait, has_handler};
use nd_base::{AdapterNo, CtxNo};
use owner_book::Book;

/// Whether what an open call waits for has come.
fn has_come(wait: Wait, world: &World) -> bool
    ghost s: { State }
    requires { world.now ≡ s.world }
    ensures { result ≡ has_come s (wait_of wait) }
{
    match wait {
        Wait::Nothing => false,
        Wait::OnLock(lock) => world.levels.holder(lock).is_none(),
        Wait::OnClock(wake) => wake <= world.clock.now(),
        Wait::OnSync(Stage::Left(_)) => true,
        Wait::OnSync(_) => false,
    }
}

/// What the open call of a context waits for, if it has one.
fn wait_at(adapters: &Adapters, x: CtxNo) -> Option<Wait>
    ensures { option_map wait_of result ≡ option_map (λ call. call.wait) (slice_index_or adapters.now.contexts x.0 no_context).call }
{
    match adapters.contexts.get(usize::from(x.0)) {
        Some(context) => context.wait(),
        None => None,
    }
}

/// Whether a context can run: its handler is open, and what its call waits for, if it has one, has
/// come.
pub fn can_run(adapters: &Adapters, x: CtxNo, book: &Book, world: &World) -> bool
    ghost o: { Point }
    requires { IsAt o adapters.now book.now world.now }
    ensures { result ≡ can_run o.state x.0 }
{
    is_open(book, x)
        && match wait_at(adapters, x) {
            Some(wait) => has_come(wait, world),
            None => true,
        }
}

/// Whether a context ran longer ago than another, or there is no other.
fn is_earlier(adapters: &Adapters, x: CtxNo, other: Option<CtxNo>) -> bool
    requires number { x.0 < 16 }
    requires other { IfSome other (λ y. y.0 < 16) }
    ensures { result ≡ is_earlier adapters.now x other }
{
    match other {
        Some(y) => adapters.ran[usize::from(x.0)] < adapters.ran[usize::from(y.0)],
        None => true,
    }
}

/// The context that can run and ran longest ago.
pub fn ready(adapters: &Adapters, book: &Book, world: &World) -> Option<CtxNo>
    ghost o: { Point }
    requires { IsAt o adapters.now book.now world.now }
    ensures some { IfSome result (λ x. can_run o.state x.0 ≡ true) }
    ensures first { IfSome result (λ x. (y : ℕ) → y < 16 → can_run o.state y ≡ true → when_ran adapters.now x.0 ≤ when_ran adapters.now y) }
    ensures none { IfNone result ((y : ℕ) → y < 16 → can_run o.state y ≡ false) }
{
    let mut first = None;
    for n in 0..CONTEXTS as u8 {
        let x = CtxNo(n);
        if can_run(adapters, x, book, world) && is_earlier(adapters, x, first) {
            first = Some(x);
        }
    }
    first
}

/// When a context wakes that sleeps.
fn wake_at(adapters: &Adapters, x: CtxNo, book: &Book) -> Option<u64>
    ghost o: { Point }
    requires keeps { Keeps o.inputs o.state adapters.now }
    requires owner { book.now ≡ o.state.owner }
    ensures { result ≡ wake_at o.state x.0 }
{
    if !is_open(book, x) {
        return None;
    }
    match wait_at(adapters, x) {
        Some(Wait::OnClock(wake)) => Some(wake),
        _ => None,
    }
}

/// The earliest moment at which a context wakes that sleeps.
pub fn next_wake(adapters: &Adapters, book: &Book) -> Option<u64>
    ghost o: { Point }
    requires keeps { Keeps o.inputs o.state adapters.now }
    requires owner { book.now ≡ o.state.owner }
    ensures some { IfSome result (λ m. (x : ℕ) × ((x < 16) × (wake_at o.state x ≡ Some m))) }
    ensures first { IfSome result (λ m. (x k : ℕ) → x < 16 → wake_at o.state x ≡ Some k → m ≤ k) }
    ensures none { IfNone result ((x : ℕ) → x < 16 → wake_at o.state x ≡ None) }
{
    let mut first = None;
    for n in 0..CONTEXTS as u8 {
        first = earlier(first, wake_at(adapters, CtxNo(n), book));
    }
    first
}

/// The earlier of two moments, where there are some.
fn earlier(one: Option<u64>, other: Option<u64>) -> Option<u64>
    ensures { result ≡ earlier one other }
{
    match (one, other) {
        (Some(one), Some(other)) => Some(one.min(other)),
        (Some(one), None) => Some(one),
        (None, other) => other,
    }
}

/// The moment of an adapter's next hang check, where it runs.
fn check_at(adapters: &Adapters, a: AdapterNo, book: &Book) -> Option<u64>
    ghost o: { Point }
    requires keeps { Keeps o.inputs o.state adapters.now }
    requires owner { book.now ≡ o.state.owner }
    ensures { result ≡ check_of o.state a.0 }
{
    if !is_running(book, a) {
        return None;
    }
    match adapters.progress.get(usize::from(a.0)) {
        Some(progress) => Some(progress.check),
        None => Some(0),
    }
}

/// The earliest moment of a hang check of an adapter that runs, where the miniport has a
/// MiniportCheckForHang.
pub fn next_check(adapters: &Adapters, book: &Book, world: &World) -> Option<u64>
    ghost o: { Point }
    requires { IsAt o adapters.now book.now world.now }
    ensures some { IfSome result (λ m. (a : ℕ) × ((a < length o.inputs.adapters) × (check_in o.state a ≡ Some m))) }
    ensures first { IfSome result (λ m. (a k : ℕ) → a < length o.inputs.adapters → check_in o.state a ≡ Some k → m ≤ k) }
    ensures none { IfNone result ((a : ℕ) → a < length o.inputs.adapters → check_in o.state a ≡ None) }
{
    let mut first = None;
    if !has_handler(world, Handler::CheckForHang) {
        return first;
    }
    for n in 0..adapters.charges.len() as u8 {
        first = earlier(first, check_at(adapters, AdapterNo(n), book));
    }
    first
}
