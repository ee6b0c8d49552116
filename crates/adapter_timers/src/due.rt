//! The first timers of an adapter, and of all adapters.

ghost use Rattle.std.specs.Prelude.{◌≡◌, true, ◌&&◌, ◌||◌, nat_lt, filter, IfSome};
ghost use Rattle.std.specs.Option.{option_map};
ghost use Rattle.std.specs.List.{find};
ghost use Rattle.nd_mem.specs.Space.{address};
ghost use Rattle.dpc_timer.specs.ClockState.{IsDue};
ghost use Rattle.legal_run.specs.State.{Inputs, State};
ghost use Rattle.legal_run.specs.Owed.{due_timer, alarms, least};
ghost use Rattle.legal_run.specs.After.{with_world};
ghost use Rattle.adapter_timers.specs.Due.{is_his, up_to, AreLiving, is_living};

use dpc_timer::Turn;
use guest_world::{TimerFunctions, World};
use nd_base::{AdapterNo, Addr};
use std::collections::VecDeque;

/// Whether the function of the timer at an address is an adapter's.
fn is_his(timers: &TimerFunctions, a: AdapterNo, timer: u32) -> bool
    ensures { result ≡ is_his timers.now a.0 timer }
{
    match timers.get(Addr(timer)) {
        Some(function) => function.adapter.0 == a.0,
        None => false,
    }
}

/// Whether the function of the timer at an address is that of an adapter that lives.
fn is_living(timers: &TimerFunctions, living: &[bool], timer: u32) -> bool
    ensures { result ≡ is_living timers.now living.now timer }
{
    match timers.get(Addr(timer)) {
        Some(function) => match living.get(usize::from(function.adapter.0)) {
            Some(lives) => *lives,
            None => false,
        },
        None => false,
    }
}

/// The first turn that is above the clock or an adapter's.
fn first_of(turns: &VecDeque<Turn>, timers: &TimerFunctions, a: AdapterNo, now: u64) -> Option<Turn>
    ensures { result ≡ find (λ x. nat_lt now x.moment || is_his timers.now a.0 x.address) turns.now.items }
{
    turns
        .iter()
        .find(|turn| now < turn.moment || is_his(timers, a, turn.address))
        .copied()
}

/// The first turn that is above the clock and that of an adapter that lives.
fn first_above(
    turns: &VecDeque<Turn>,
    timers: &TimerFunctions,
    living: &[bool],
    now: u64,
) -> Option<Turn>
    ensures { result ≡ find (λ x. nat_lt now x.moment && is_living timers.now living.now x.address) turns.now.items }
{
    turns
        .iter()
        .find(|turn| now < turn.moment && is_living(timers, living, turn.address))
        .copied()
}

/// The timer of a turn, unless it is above the clock.
fn timer_up_to(now: u64, turn: Option<Turn>) -> Option<Addr>
    ensures { result ≡ option_map (λ x. address x.address) (up_to now turn) }
{
    match turn {
        Some(turn) => {
            if turn.moment <= now {
                Some(Addr(turn.address))
            } else {
                None
            }
        }
        None => None,
    }
}

/// The moment of a turn.
fn moment_of(turn: Option<Turn>) -> Option<u64>
    ensures { result ≡ option_map (λ x. x.moment) turn }
{
    match turn {
        Some(turn) => Some(turn.moment),
        None => None,
    }
}

/// The adapter's due timer of least moment, of equal moments the one of least address.
pub fn due_timer(world: &World, a: AdapterNo) -> Option<Addr>
    ensures timer { (s : State)
        → result ≡ option_map (λ t. address t.0) (due_timer (with_world s world.now) a.0) }
    ensures due { IfSome result (IsDue world.now.clock) }
{
    let now = world.clock.now();
    timer_up_to(now, first_of(world.clock.turns(), &world.timers, a, now))
}

/// The earliest moment above the clock for which a timer of an adapter is armed that lives: by an
/// adapter's number it is given whether it does.
pub fn next_alarm(world: &World, living: &[bool]) -> Option<u64>
    ensures { (c : Inputs) (s : State) → AreLiving c s living.now
        → result ≡ least (filter (λ m. nat_lt world.now.clock.clock m) (alarms c (with_world s world.now))) }
{
    let now = world.clock.now();
    moment_of(first_above(world.clock.turns(), &world.timers, living, now))
}
