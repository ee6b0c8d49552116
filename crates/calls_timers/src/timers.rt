//! Timers, and sleep. A timer is named by its address.

ghost use Rattle.std.specs.Prelude.{◌≡◌, ◌≤◌, ◌<◌, ◌+◌, ◌^◌, Ok, length};
ghost use Rattle.import_answers.specs.World.{IsNumber};
ghost use Rattle.guest_world.specs.Worlds.{CanAnswer, longest_time};
ghost use Rattle.import_answers.specs.Registration.{is_function};
ghost use Rattle.import_answers.specs.Timers.{initialize_timer, set_timer, set_periodic_timer, cancel_timer, sleep, is_timer, time_of, armed};
ghost use Rattle.import_answers.specs.Outcomes.{Comes, done};

use call_replies::{ARGUMENTS_RULE, can_write, is_adapter_handle, put_bytes, writes};
use guest_map::slot_address;
use guest_world::{Answer, CallRefusal, Caller, TimerFunction, World};
use log_fields::Writes;
use nd_base::{AdapterNo, Addr, Slot};
use std::alloc::Global;

/// The longest time of a timer, a day, in microseconds.
const LONGEST_TIME: u64 = 86_400_000_000;

/// Whether an address may be that of a function: handlers return to one that is not.
fn is_function(address: u32) -> bool
    ensures { result ≡ is_function address }
{
    address != slot_address(Slot::Leave).0
}

/// NdisMInitializeTimer, import 16: gives a timer its function. A timer that is armed stays armed.
pub fn initialize_timer(
    alloc: Global,
    world: &mut World,
    caller: Caller,
    words: &[u32],
) -> Result<Answer, CallRefusal>
    requires number { IsNumber caller.adapter }
    requires words { 4 ≤ length words.now }
    ensures { Comes (initialize_timer world.old caller words.now) world.old result world.new }
{
    let Some(adapter) = caller.adapter else {
        return Err(ARGUMENTS_RULE);
    };
    if !is_adapter_handle(caller.adapter, words[1]) || !is_function(words[2]) {
        return Err(ARGUMENTS_RULE);
    }
    let given = TimerFunction {
        adapter,
        function: words[2],
        context: words[3],
    };
    match world.timers.set(Addr(words[0]), given) {
        Ok(()) => Ok(call_replies::done(alloc)),
        Err(_) => Err(CallRefusal::OutOfMemory),
    }
}

/// Whether the adapter is the one that initialized the timer last.
fn is_timer(world: &World, adapter: Option<AdapterNo>, timer: u32) -> bool
    ensures { result ≡ is_timer world.now adapter timer }
{
    match (adapter, world.timers.get(Addr(timer))) {
        (Some(adapter), Some(given)) => given.adapter.0 == adapter.0,
        _ => false,
    }
}

/// So many milliseconds, in microseconds, and a day at most.
fn time_of(milliseconds: u32) -> u64
    ensures value { result ≡ time_of milliseconds }
    ensures most { result ≤ longest_time }
{
    (u64::from(milliseconds) * 1000).min(LONGEST_TIME)
}

/// Arms a timer for so many microseconds from now, with a period or 0.
fn arm(
    alloc: Global,
    world: &mut World,
    timer: u32,
    time: u64,
    period: u64,
) -> Result<Answer, CallRefusal>
    requires { world.old.clock.clock + time < 2 ^ 64 }
    ensures { Comes (done (armed world.old timer time period)) world.old result world.new }
{
    let due = world.clock.now() + time;
    match world.clock.set_timer(Addr(timer), due, period) {
        Ok(()) => Ok(call_replies::done(alloc)),
        Err(_) => Err(CallRefusal::OutOfMemory),
    }
}

/// NdisSetTimer, import 17: arms a timer once.
pub fn set_timer(
    alloc: Global,
    world: &mut World,
    caller: Caller,
    words: &[u32],
) -> Result<Answer, CallRefusal>
    requires can { CanAnswer world.old caller }
    requires words { 2 ≤ length words.now }
    ensures { Comes (set_timer world.old caller words.now) world.old result world.new }
{
    if !is_timer(world, caller.adapter, words[0]) {
        return Err(ARGUMENTS_RULE);
    }
    arm(alloc, world, words[0], time_of(words[1]), 0)
}

/// NdisMSetPeriodicTimer, import 18: arms a timer again and again, each time for a millisecond at
/// least.
pub fn set_periodic_timer(
    alloc: Global,
    world: &mut World,
    caller: Caller,
    words: &[u32],
) -> Result<Answer, CallRefusal>
    requires can { CanAnswer world.old caller }
    requires words { 2 ≤ length words.now }
    ensures { Comes (set_periodic_timer world.old caller words.now) world.old result world.new }
{
    if !is_timer(world, caller.adapter, words[0]) {
        return Err(ARGUMENTS_RULE);
    }
    let period = time_of(words[1].max(1));
    arm(alloc, world, words[0], time_of(words[1]), period)
}

/// NdisMCancelTimer, import 19: disarms a timer, and writes whether it was armed.
pub fn cancel_timer(
    alloc: Global,
    world: &mut World,
    caller: Caller,
    words: &[u32],
) -> Result<Answer, CallRefusal>
    requires { 2 ≤ length words.now }
    ensures { Comes (cancel_timer world.old caller words.now) world.old result world.new }
{
    if !is_timer(world, caller.adapter, words[0]) || !can_write(world, words[1], 1) {
        return Err(ARGUMENTS_RULE);
    }
    let timer = Addr(words[0]);
    let cancelled = match world.clock.armed(timer) {
        Some(_) => 1,
        None => 0,
    };
    let mut list = Writes::new(alloc);
    put_bytes(alloc, &mut list, words[1], &[cancelled])?;
    let _armed = world.clock.cancel(timer);
    Ok(writes(alloc, 0, list))
}

/// NdisMSleep, import 20: the caller sleeps for so many microseconds.
pub fn sleep(world: &World, caller: Caller, words: &[u32]) -> Answer
    requires can { CanAnswer world.now caller }
    requires words { 1 ≤ length words.now }
    ensures { Comes (sleep world.now words.now) world.now (Ok result) world.now }
{
    Answer::Sleep(world.clock.now() + u64::from(words[0]))
}
