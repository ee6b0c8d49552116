use adapter_timers::{due_timer, next_alarm, quiet};
use guest_world::{TimerFunction, World};
use nd_base::{AdapterNo, Addr, Layout};
use nd_mem::Memory;
use std::alloc::Global;

const LOW: Addr = Addr(0x8100_0010);

const HIGH: Addr = Addr(0x8100_0020);

const FOREIGN: Addr = Addr(0x8100_0030);

/// How many timers the large test has.
const MANY: u32 = 2_000;

/// A world with its clock at 0, and no timer.
fn new_world(alloc: Global) -> Option<World> {
    World::new(alloc, Layout::usual(), Memory::new(alloc)).ok()
}

/// A timer of an adapter is initialized, and armed for a moment.
fn arms(world: &mut World, timer: Addr, a: u8, moment: u64) -> bool {
    let function = TimerFunction {
        adapter: AdapterNo(a),
        function: 0x8010_1000,
        context: 0,
    };
    world.timers.set(timer, function).is_ok() && world.clock.set_timer(timer, moment, 0).is_ok()
}

/// Adapter 1's timer is due first; of adapter 0's two the one of the lower address comes first, and a
/// later one waits.
fn is_due_in_order(world: &mut World) -> bool {
    let armed = arms(world, HIGH, 0, 0) && arms(world, LOW, 0, 0) && arms(world, FOREIGN, 1, 0);
    let first = due_timer(world, AdapterNo(0)) == Some(LOW);
    let low_cancelled = world.clock.cancel(LOW);
    let second = due_timer(world, AdapterNo(0)) == Some(HIGH);
    let later = arms(world, HIGH, 0, 1) && due_timer(world, AdapterNo(0)) == None;
    let foreign = due_timer(world, AdapterNo(1)) == Some(FOREIGN);
    let nobody = due_timer(world, AdapterNo(2)) == None;
    armed && first && low_cancelled && second && later && foreign && nobody
}

#[test]
fn the_first_due_timer_is_the_adapters(rt: HostRuntime) {
    let in_order = match new_world(rt.alloc()) {
        Some(mut world) => is_due_in_order(&mut world),
        None => false,
    };
    assert!(rt; in_order);
}

/// The next alarm is above the clock, and that of an adapter that lives.
fn rings_in_order(world: &mut World) -> bool {
    let armed = arms(world, LOW, 0, 0) && arms(world, HIGH, 1, 7) && arms(world, FOREIGN, 0, 9);
    let both = next_alarm(world, &[true, true]) == Some(7);
    let first_alone = next_alarm(world, &[true, false]) == Some(9);
    let second_alone = next_alarm(world, &[false, true]) == Some(7);
    let none = next_alarm(world, &[]) == None;
    armed && both && first_alone && second_alone && none
}

#[test]
fn alarms_are_those_of_adapters_that_live(rt: HostRuntime) {
    let in_order = match new_world(rt.alloc()) {
        Some(mut world) => rings_in_order(&mut world),
        None => false,
    };
    assert!(rt; in_order);
}

/// An adapter's timers are armed no more, its handler is queued no more, and another's stay.
fn is_quiet(world: &mut World) -> bool {
    let armed = arms(world, LOW, 0, 5) && arms(world, HIGH, 0, 6) && arms(world, FOREIGN, 1, 5);
    world.clock.queue_dpc(AdapterNo(0));
    world.clock.queue_dpc(AdapterNo(1));
    quiet(world, AdapterNo(0));
    let gone = world.clock.armed(LOW) == None && world.clock.armed(HIGH) == None;
    let stays = world.clock.armed(FOREIGN) == Some(5);
    let unqueued = !world.clock.queued(AdapterNo(0)) && world.clock.queued(AdapterNo(1));
    armed && gone && stays && unqueued
}

#[test]
fn an_adapter_that_ends_has_no_timers(rt: HostRuntime) {
    let still = match new_world(rt.alloc()) {
        Some(mut world) => is_quiet(&mut world),
        None => false,
    };
    assert!(rt; still);
}

/// Many timers of adapter 1 are due, and one of adapter 0 behind them.
fn arms_many(world: &mut World) -> bool {
    for i in 0..MANY {
        if !arms(world, Addr(0x8200_0000 + i), 1, 0) {
            return false;
        }
    }
    arms(world, Addr(0x8200_0000 + MANY), 0, 0)
}

fn finds_one_of_many(world: &mut World) -> bool {
    let armed = arms_many(world);
    let found = due_timer(world, AdapterNo(0)) == Some(Addr(0x8200_0000 + MANY));
    quiet(world, AdapterNo(1));
    armed && found && due_timer(world, AdapterNo(1)) == None
}

#[test]
fn one_of_many_timers_is_found(rt: HostRuntime) {
    let found = match new_world(rt.alloc()) {
        Some(mut world) => finds_one_of_many(&mut world),
        None => false,
    };
    assert!(rt; found);
}
