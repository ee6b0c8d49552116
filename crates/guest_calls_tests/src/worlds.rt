//! A world with one adapter: an NE2000 at port 0300 and line 5. Its clock is at 500. Another context
//! holds a lock, and another adapter has initialized a timer.

ghost use Rattle.std.specs.Prelude.{◌≡◌};
ghost use Rattle.irql_lock.specs.LockState.{nothing};

use guest_map::map_regions;
use guest_world::{Adapter, Hardware, Params, TimerFunction, World};
use inf_file::{Param, ParamValue};
use irql_lock::{Levels, Took};
use nd_base::{AdapterNo, Addr, CtxNo, Layout, Wide};
use nd_mem::{Memory, Rights};
use std::alloc::Global;

/// The handle of adapter 0.
pub const HANDLE: u32 = 0x8500_0000;

/// The handle of adapter 1.
pub const OTHER_HANDLE: u32 = 0x8500_1000;

/// Code: it can be read, and not be written.
pub const CODE: u32 = 0x8010_1000;

/// Where nothing is mapped.
pub const NOWHERE: u32 = 0x100;

/// The address that handlers return to.
pub const LEAVE: u32 = 0xF000_1000;

/// Places of four bytes, in the first context's answer area.
pub const STATUS: u32 = 0x8200_8000;

pub const VALUE: u32 = 0x8200_8004;

pub const THIRD: u32 = 0x8200_8008;

pub const FOURTH: u32 = 0x8200_800C;

/// Room behind these places.
pub const AREA: u32 = 0x8200_9000;

/// A lock that nobody holds but where a test says so.
pub const LOCK: u32 = 0x8200_0100;

/// A lock that context 1 holds.
pub const BUSY: u32 = 0x8200_0104;

/// A timer of adapter 1.
pub const FOREIGN: u32 = 0x8200_0300;

/// Four bytes of zeros: SUCCESS, or no handle.
pub const ZERO: &[u8] = &[0, 0, 0, 0];

/// NDIS_STATUS_FAILURE.
pub const FAILURE: &[u8] = &[1, 0, 0, 0xC0];

/// NDIS_STATUS_RESOURCES.
pub const RESOURCES: &[u8] = &[0x9A, 0, 0, 0xC0];

/// A text of 16-bit units.
fn wide(alloc: Global, text: &[u8]) -> Option<Wide> {
    let mut wide = Wide::new(alloc);
    for byte in text {
        wide.push(u16::from(*byte)).ok()?;
    }
    Some(wide)
}

/// Puts a text parameter behind others.
fn add_text(alloc: Global, params: &mut Vec<Param>, name: &[u8], text: &[u8]) -> Option<()> {
    let name = wide(alloc, name)?;
    let Some(text) = wide(alloc, text) else {
        return None;
    };
    let value = ParamValue::Text(text);
    params.push(Param { name, value }).ok()?;
    Some(())
}

/// Puts a number behind other parameters.
fn add_number(alloc: Global, params: &mut Vec<Param>, name: &[u8], number: u32) -> Option<()> {
    let name = wide(alloc, name)?;
    let value = ParamValue::Number(number);
    params.push(Param { name, value }).ok()?;
    Some(())
}

const TEXTS: [(&[u8], &[u8]); 7] = [
    (b"IoBaseAddress", b"300"),
    (b"Most", b"4294967295"),
    (b"More", b"4294967296"),
    (b"Sign", b"-1"),
    (b"Hex", b"fF"),
    (b"Prefix", b"0x10"),
    (b"Empty", b""),
];

fn add_texts(alloc: Global, params: &mut Vec<Param>) -> Option<()> {
    for (name, text) in TEXTS {
        add_text(alloc, params, name, text)?;
    }
    Some(())
}

fn parameters(alloc: Global, network: &[u8]) -> Option<Params> {
    let mut params = Vec::new(alloc);
    add_texts(alloc, &mut params)?;
    add_number(alloc, &mut params, b"Speed", 10)?;
    add_text(alloc, &mut params, b"NetworkAddress", network)?;
    Some(Params::new(params))
}

/// The regions beside an image, and a page of code.
fn memory(alloc: Global) -> Option<Memory> {
    let rights = Rights {
        read: true,
        write: false,
        execute: true,
    };
    let mut memory = Memory::new(alloc);
    map_regions(alloc, &mut memory).ok()?;
    memory.add_region(alloc, Addr(CODE), 0x1000, rights).ok()?;
    Some(memory)
}

fn adapter(alloc: Global, network: &[u8]) -> Option<Adapter> {
    let hardware = Hardware {
        port: 0x300,
        irq: 5,
        station: [0x52, 0x54, 0x00, 0x12, 0x34, 0x56],
    };
    let params = parameters(alloc, network)?;
    Adapter::new(alloc, hardware, params).ok()
}

/// Context 1 gets its lock, and the other lock is made.
fn are_locked(levels: &mut Levels) -> bool
    requires { levels.old ≡ nothing }
{
    levels.begin(CtxNo(1), 0);
    levels.make(Addr(BUSY)).is_ok()
        && levels.acquire(CtxNo(1), Addr(BUSY), true) == Ok(Took::Got)
        && levels.make(Addr(LOCK)).is_ok()
}

/// Gives a new world its moment, its locks, the other adapter's timer, and adapter 0.
fn furnish(alloc: Global, world: &mut World, network: &[u8]) -> Option<()>
    requires levels { world.old.levels ≡ nothing }
    requires clock { world.old.clock.clock ≡ 0 }
{
    let foreign = TimerFunction {
        adapter: AdapterNo(1),
        function: CODE,
        context: 0,
    };
    world.clock.rise(500);
    if !are_locked(&mut world.levels) {
        return None;
    }
    world.timers.set(Addr(FOREIGN), foreign).ok()?;
    world.adapters[0] = Some(adapter(alloc, network)?);
    Some(())
}

/// The world of a test, with this network address.
pub fn world(alloc: Global, network: &[u8]) -> Option<World> {
    let memory = memory(alloc)?;
    let mut world = World::new(alloc, Layout::usual(), memory).ok()?;
    match furnish(alloc, &mut world, network) {
        Some(()) => Some(world),
        None => None,
    }
}
