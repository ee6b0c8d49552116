ghost use Rattle.owed_handlers_tests.specs.Settled.{IsSettled};

use crate::runs::{arms, chosen, new_adapters, new_book, new_world, runs, succeed};
use guest_world::World;
use log_fields::Handler;
use miniport_state::Adapters;
use nd_base::{AdapterNo, Addr};
use owed_handlers::Owed;
use owner_book::Book;
use std::alloc::Global;

const FIRST: AdapterNo = AdapterNo(0);

const SECOND: AdapterNo = AdapterNo(1);

const TIMER: u32 = 0x8100_0010;

/// How many timers the large test has.
const MANY: u32 = 1_000;

/// DriverEntry is owed before all, also where a timer is due.
fn begins(alloc: Global) -> Option<bool> {
    let adapters = new_adapters(alloc)?;
    let book = new_book(alloc)?;
    let mut world = new_world(alloc)?;
    let armed = arms(&mut world, TIMER, 0);
    Some(armed && chosen(&adapters, &book, &world) == Some(Owed::Entry))
}

#[test]
fn driver_entry_comes_first(rt: HostRuntime) {
    let first = begins(rt.alloc()) == Some(true);
    assert!(rt; first);
}

/// The lower adapter comes first; of one adapter the queued handler, then its timer, then its end.
fn is_in_order(adapters: &Adapters, book: &Book, world: &mut World) -> bool
    requires { IsSettled adapters.now }
{
    let armed = arms(world, TIMER, 0) && arms(world, TIMER + 16, 1);
    world.clock.queue_dpc(SECOND);
    let timer = chosen(adapters, book, world) == Some(Owed::Handler(FIRST, Handler::Timer));
    world.clock.queue_dpc(FIRST);
    let queued = chosen(adapters, book, world)
        == Some(Owed::Handler(FIRST, Handler::HandleInterrupt));
    let _ = world.clock.take_dpc(FIRST);
    let _ = world.clock.cancel(Addr(TIMER));
    let halt = chosen(adapters, book, world) == Some(Owed::Handler(FIRST, Handler::Halt));
    armed && timer && queued && halt
}

fn goes_on(alloc: Global) -> Option<bool> {
    let mut adapters = new_adapters(alloc)?;
    let mut book = new_book(alloc)?;
    let mut world = new_world(alloc)?;
    succeed(&mut adapters);
    let running = runs(alloc, &mut book);
    Some(running && is_in_order(&adapters, &book, &mut world))
}

#[test]
fn handlers_come_in_order(rt: HostRuntime) {
    let in_order = goes_on(rt.alloc()) == Some(true);
    assert!(rt; in_order);
}

/// Many timers of adapter 1 are due, and one of adapter 0 behind them.
fn arms_many(world: &mut World) -> bool {
    for i in 0..MANY {
        if !arms(world, 0x8200_0000 + i, 1) {
            return false;
        }
    }
    arms(world, 0x8200_0000 + MANY, 0)
}

fn finds_one_of_many(alloc: Global) -> Option<bool> {
    let mut adapters = new_adapters(alloc)?;
    let mut book = new_book(alloc)?;
    let mut world = new_world(alloc)?;
    succeed(&mut adapters);
    let ready = runs(alloc, &mut book) && arms_many(&mut world);
    Some(ready && chosen(&adapters, &book, &world) == Some(Owed::Handler(FIRST, Handler::Timer)))
}

#[test]
fn one_of_many_timers_is_found(rt: HostRuntime) {
    let found = finds_one_of_many(rt.alloc()) == Some(true);
    assert!(rt; found);
}
