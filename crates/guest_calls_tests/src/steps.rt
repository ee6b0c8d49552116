//! Steps of a test, one after the other in one world.

ghost use Rattle.guest_calls_tests.specs.Ready.{IsReady};

use crate::asking::{asked, call_of, ready};
use crate::replies::{Comes, comes_to, made};
use crate::worlds::world;
use guest_world::{Adapter, World};
use log_fields::Handler;
use nd_base::Addr;
use std::alloc::Global;

/// A step of a test.
#[derive(Clone, Copy)]
pub enum Step {
    /// These bytes are written to guest memory.
    Put(u32, &'static [u8]),
    /// A call is made at a level, of the import of this number, with these words.
    Call(u8, u8, &'static [u32], Comes),
    /// The same, by a context that holds `LOCK`.
    Holding(u8, u8, &'static [u32], Comes),
    /// The timer at an address is armed for this moment.
    Armed(u32, u64),
    /// The timer at an address is not armed.
    Idle(u32),
    /// The timer at an address is due.
    Fires(u32),
    /// A block of so many bytes is taken from the guest pool.
    Fill(u32),
    /// A packet is lent.
    Lend(u32),
    /// Of the adapter are kept: its context, the period of its hang checks, whether it is
    /// deserialized.
    Kept(u32, u64, bool),
    /// No attributes are kept of the adapter.
    Plain,
    /// The adapter's interrupt object stands at an address, and its ISR is entered or not.
    Serves(u32, bool),
}

/// Steps, of which the calls are made in one handler.
pub type Part = (Handler, &'static [Step]);

/// Whether a call comes to what it must; its writes are made then.
fn is_answered(
    alloc: Global,
    world: &mut World,
    handler: Handler,
    import: u8,
    words: &[u32],
    comes: &Comes,
) -> bool
    requires { IsReady world.old }
{
    let Some(call) = call_of(import, words) else {
        return false;
    };
    let answer = asked(alloc, world, handler, &call);
    comes_to(&answer, comes) && made(&mut world.memory, &answer)
}

fn lends(world: &mut World, packet: Addr) -> bool {
    if !world.pools.has_packet(packet) {
        return false;
    }
    world.pools.lend(packet);
    true
}

fn keeps(adapter: &Option<Adapter>, context: u32, period: u64, deserialized: bool) -> bool {
    match adapter {
        Some(adapter) => match adapter.attributes {
            Some(kept) => {
                kept.context == context
                    && kept.hang_period == period
                    && kept.deserialized == deserialized
            }
            None => false,
        },
        None => false,
    }
}

fn is_plain(adapter: &Option<Adapter>) -> bool {
    match adapter {
        Some(adapter) => adapter.attributes.is_none(),
        None => false,
    }
}

fn serves(adapter: &Option<Adapter>, object: u32, enters_isr: bool) -> bool {
    match adapter {
        Some(adapter) => match adapter.interrupt {
            Some(kept) => kept.object.0 == object && kept.enters_isr == enters_isr,
            None => false,
        },
        None => false,
    }
}

/// Takes a step. Whether it went as it must.
pub fn is_taken(alloc: Global, world: &mut World, handler: Handler, step: &Step) -> bool {
    match step {
        Step::Put(at, bytes) => world.memory.write(Addr(*at), bytes).is_ok(),
        Step::Call(level, import, words, comes) => {
            ready(alloc, world, *level, false)
                && is_answered(alloc, world, handler, *import, words, comes)
        }
        Step::Holding(level, import, words, comes) => {
            ready(alloc, world, *level, true)
                && is_answered(alloc, world, handler, *import, words, comes)
        }
        Step::Armed(timer, moment) => world.clock.armed(Addr(*timer)) == Some(*moment),
        Step::Idle(timer) => world.clock.armed(Addr(*timer)).is_none(),
        Step::Fires(timer) => world.clock.take_due() == Some(Addr(*timer)),
        Step::Fill(length) => world.pools.alloc_block(*length).is_ok(),
        Step::Lend(packet) => lends(world, Addr(*packet)),
        Step::Kept(context, period, deserialized) => {
            keeps(&world.adapters[0], *context, *period, *deserialized)
        }
        Step::Plain => is_plain(&world.adapters[0]),
        Step::Serves(object, enters_isr) => serves(&world.adapters[0], *object, *enters_isr),
    }
}

/// How many steps in front go as they must.
fn good_steps(alloc: Global, world: &mut World, handler: Handler, steps: &[Step]) -> usize {
    for (place, step) in steps.iter().enumerate() {
        if !is_taken(alloc, world, handler, step) {
            return place;
        }
    }
    steps.len()
}

/// The part and the step of it, each from 0, that is the first to go wrong.
pub fn first_wrong(alloc: Global, world: &mut World, parts: &[Part]) -> Option<(usize, usize)> {
    for (place, (handler, steps)) in parts.iter().enumerate() {
        let good = good_steps(alloc, world, *handler, steps);
        if good < steps.len() {
            return Some((place, good));
        }
    }
    None
}

/// Whether all steps go as they must, in a world with this network address.
pub fn passes_with(alloc: Global, network: &[u8], parts: &[Part]) -> bool {
    match world(alloc, network) {
        Some(mut world) => first_wrong(alloc, &mut world, parts).is_none(),
        None => false,
    }
}

/// Whether all steps go as they must.
pub fn passes(alloc: Global, parts: &[Part]) -> bool {
    passes_with(alloc, b"0200000000aB", parts)
}
