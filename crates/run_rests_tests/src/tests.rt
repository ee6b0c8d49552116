ghost use Rattle.run_rests_tests.specs.Settled.{IsSettled};

use crate::runs::{
    HANDED, Kept, RUNNING, chosen, new_adapters, new_book, new_world, succeed, takes,
};
use call_log::Condition;
use frame_wire::Arrival;
use log_fields::Handler;
use miniport_state::Adapters;
use nd_base::{AdapterNo, BindingNo, Bytes, CtxNo};
use owed_handlers::Owed;
use run_course::Course;
use run_rests::Due;
use std::alloc::Global;

const FIRST: AdapterNo = AdapterNo(0);

const DRIVER: BindingNo = BindingNo(0);

const LOWEST: CtxNo = CtxNo(0);

fn new_kept(alloc: Global) -> Option<Kept> {
    Some(Kept {
        book: new_book(alloc)?,
        world: new_world(alloc)?,
        course: Course::new(alloc, 1).ok()?,
    })
}

/// DriverEntry is entered before all, in the lowest context.
fn begins(alloc: Global) -> Option<bool> {
    let adapters = new_adapters(alloc)?;
    let kept = new_kept(alloc)?;
    Some(chosen(&adapters, &kept, &[], None) == Some(Due::Enter(LOWEST, Owed::Entry)))
}

#[test]
fn driver_entry_comes_first(rt: HostRuntime) {
    let first = begins(rt.alloc()) == Some(true);
    assert!(rt; first);
}

/// Nothing comes before the driver acts, and where it waits in vain it hears so.
fn is_quiet(adapters: &Adapters, kept: &mut Kept) -> bool
    requires { IsSettled adapters.now }
{
    let nothing = chosen(adapters, kept, &[], Some(DRIVER)) == Some(Due::Nothing);
    kept.course.wait(DRIVER, Condition::Frames(1));
    let quiet = chosen(adapters, kept, &[], Some(DRIVER)) == Some(Due::Quiet(DRIVER));
    let other = chosen(adapters, kept, &[], None) == Some(Due::Nothing);
    nothing && quiet && other
}

/// From 0 the clock goes on to a frame; where it has come, the frame comes.
fn comes(alloc: Global, adapters: &Adapters, kept: &mut Kept) -> bool
    requires { IsSettled adapters.now }
{
    if kept.world.clock.now() != 0 {
        return false;
    }
    let frames = [Arrival {
        stamp: 50,
        bytes: Bytes::new(alloc),
    }];
    let jumps = chosen(adapters, kept, &frames, Some(DRIVER)) == Some(Due::Jump(50));
    kept.world.clock.rise(50);
    jumps && chosen(adapters, kept, &frames, Some(DRIVER)) == Some(Due::Frame)
}

fn waits(alloc: Global) -> Option<bool> {
    let mut adapters = new_adapters(alloc)?;
    let mut kept = new_kept(alloc)?;
    succeed(&mut adapters);
    let running = takes(alloc, &mut kept.book, RUNNING);
    let quiet = is_quiet(&adapters, &mut kept);
    Some(running && quiet && comes(alloc, &adapters, &mut kept))
}

#[test]
fn a_driver_waits(rt: HostRuntime) {
    let waits = waits(rt.alloc()) == Some(true);
    assert!(rt; waits);
}

/// An adapter whose miniport keeps a packet is stopped, once the driver waits for it.
fn stops(alloc: Global) -> Option<bool> {
    let mut adapters = new_adapters(alloc)?;
    let mut kept = new_kept(alloc)?;
    succeed(&mut adapters);
    let running = takes(alloc, &mut kept.book, RUNNING) && takes(alloc, &mut kept.book, HANDED);
    let nothing = chosen(&adapters, &kept, &[], Some(DRIVER)) == Some(Due::Nothing);
    kept.course.wait(DRIVER, Condition::Sent);
    Some(
        running && nothing && chosen(&adapters, &kept, &[], Some(DRIVER)) == Some(Due::Stop(FIRST)),
    )
}

#[test]
fn a_silent_adapter_is_stopped(rt: HostRuntime) {
    let stops = stops(rt.alloc()) == Some(true);
    assert!(rt; stops);
}

/// A packet that is queued is handed.
fn hands(alloc: Global) -> Option<bool> {
    let mut adapters = new_adapters(alloc)?;
    let mut kept = new_kept(alloc)?;
    succeed(&mut adapters);
    let running = takes(alloc, &mut kept.book, RUNNING);
    let sent = takes(
        alloc,
        &mut kept.book,
        b"send 0 0 ffffffffffff0000000000010800\n",
    );
    let enters = Due::Enter(LOWEST, Owed::Handler(FIRST, Handler::Send));
    Some(running && sent && chosen(&adapters, &kept, &[], None) == Some(enters))
}

#[test]
fn a_packet_is_handed(rt: HostRuntime) {
    let hands = hands(rt.alloc()) == Some(true);
    assert!(rt; hands);
}
