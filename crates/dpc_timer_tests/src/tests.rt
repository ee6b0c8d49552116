ghost use Rattle.std.specs.Prelude.{◌≡◌, ◌<◌, ◌≤◌};
ghost use Rattle.dpc_timer.specs.ClockState.{start};

use dpc_timer::Clock;
use nd_base::{AdapterNo, Addr};

const LOW: Addr = Addr(0x8100_0010);

const HIGH: Addr = Addr(0x8100_0020);

/// Arms two timers for the moment 5, the one of the greater address first.
fn arms_two(clock: &mut Clock) -> bool
    ensures { clock.new.clock ≡ clock.old.clock }
{
    clock.set_timer(HIGH, 5, 0).is_ok() && clock.set_timer(LOW, 5, 0).is_ok()
}

fn equal_moments(clock: &mut Clock) -> bool
    requires { clock.old ≡ start }
{
    let armed = arms_two(clock) && clock.next_due() == Some(5) && clock.armed(HIGH) == Some(5);
    clock.rise(4);
    let early = clock.take_due() == None;
    clock.rise(1);
    armed
        && early
        && clock.next_due() == None
        && clock.take_due() == Some(LOW)
        && clock.take_due() == Some(HIGH)
        && clock.take_due() == None
        && !clock.cancel(LOW)
}

#[test]
fn of_equal_moments_the_least_address_comes_first(rt: HostRuntime) {
    let mut clock = Clock::new(rt.alloc());
    let taken = equal_moments(&mut clock);
    assert!(rt; taken);
}

fn periodic(clock: &mut Clock) -> bool
    requires { clock.old ≡ start }
{
    let armed = clock.set_timer(LOW, 10, 100).is_ok() && clock.set_timer(HIGH, 30, 0).is_ok();
    clock.rise(25);
    let first = armed && clock.take_due() == Some(LOW) && clock.armed(LOW) == Some(125);
    clock.rise(100);
    first
        && clock.take_due() == Some(HIGH)
        && clock.take_due() == Some(LOW)
        && clock.next_due() == Some(225)
        && clock.cancel(LOW)
        && clock.next_due() == None
}

#[test]
fn a_periodic_timer_is_armed_again(rt: HostRuntime) {
    let mut clock = Clock::new(rt.alloc());
    let again = periodic(&mut clock);
    assert!(rt; again);
}

fn at_the_end(clock: &mut Clock) -> bool
    requires { clock.old ≡ start }
{
    let armed = clock.set_timer(LOW, u64::MAX - 1, 1000).is_ok();
    clock.rise(u64::MAX - 1);
    let fired = armed && clock.take_due() == Some(LOW) && clock.armed(LOW) == Some(u64::MAX);
    let next = clock.next_due() == Some(u64::MAX) && clock.take_due() == None;
    clock.rise(1);
    fired && next && clock.now() == u64::MAX && clock.take_due() == Some(LOW)
}

#[test]
fn a_period_ends_at_the_last_moment(rt: HostRuntime) {
    let mut clock = Clock::new(rt.alloc());
    let last = at_the_end(&mut clock);
    assert!(rt; last);
}

fn set_twice(clock: &mut Clock) -> bool
    requires { clock.old ≡ start }
{
    let armed = clock.set_timer(LOW, 7, 0).is_ok() && clock.set_timer(LOW, 3, 2).is_ok();
    clock.rise(3);
    armed
        && clock.take_due() == Some(LOW)
        && clock.armed(LOW) == Some(5)
        && clock.armed(HIGH) == None
        && clock.cancel(LOW)
        && !clock.cancel(LOW)
        && clock.take_due() == None
}

#[test]
fn of_two_settings_the_last_counts(rt: HostRuntime) {
    let mut clock = Clock::new(rt.alloc());
    let last = set_twice(&mut clock);
    assert!(rt; last);
}

fn queues(clock: &mut Clock) -> bool {
    clock.queue_dpc(AdapterNo(0));
    clock.queue_dpc(AdapterNo(255));
    clock.queue_dpc(AdapterNo(0));
    clock.queued(AdapterNo(0))
        && !clock.queued(AdapterNo(1))
        && clock.take_dpc(AdapterNo(0))
        && !clock.take_dpc(AdapterNo(0))
        && !clock.take_dpc(AdapterNo(3))
        && clock.take_dpc(AdapterNo(255))
}

#[test]
fn a_handler_is_queued_once(rt: HostRuntime) {
    let mut clock = Clock::new(rt.alloc());
    let once = queues(&mut clock);
    assert!(rt; once);
}

/// Arms a thousand timers, the last one first; each moment is that of two of them.
fn arms_many(clock: &mut Clock) -> bool
    ensures { clock.new.clock ≡ clock.old.clock }
{
    for n in (0..1000u32).rev() {
        let timer = Addr(0x8100_0000 + 16 * n);
        if clock.set_timer(timer, u64::from(n / 2), 0).is_err() {
            return false;
        }
    }
    true
}

/// Whether the thousand timers come in the order of their moments and addresses.
fn takes_many(clock: &mut Clock) -> bool {
    for n in 0..1000u32 {
        if clock.take_due() != Some(Addr(0x8100_0000 + 16 * n)) {
            return false;
        }
    }
    clock.take_due() == None
}

fn thousand(clock: &mut Clock) -> bool
    requires { clock.old ≡ start }
{
    let armed = arms_many(clock);
    clock.rise(1000);
    armed && takes_many(clock)
}

#[test]
fn a_thousand_timers_come_in_order(rt: HostRuntime) {
    let mut clock = Clock::new(rt.alloc());
    let came = thousand(&mut clock);
    assert!(rt; came);
}
