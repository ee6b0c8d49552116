//! Imports 1 to 3: the wrapper, and the miniport.

use crate::replies::Comes::{Breaks, Returns};
use crate::steps::Step::{Call, Put};
use crate::steps::{Part, Step, first_wrong, passes};
use crate::worlds::{AREA, CODE, NOWHERE, STATUS, world};
use guest_world::World;
use log_fields::Handler;
use nd_base::Addr;
use std::alloc::Global;

const WRAPPER: &[Step] = &[
    Call(
        0,
        1,
        &[STATUS, 0xE000_0000, 0xE000_0008, 0],
        Returns(0, &[(STATUS, &[0x10, 0, 0, 0xE0])]),
    ),
    Call(0, 1, &[CODE, 0xE000_0000, 0xE000_0008, 0], Breaks(9)),
    Call(0, 1, &[STATUS - 1, 0, 0, 0], Breaks(9)),
    Call(1, 1, &[NOWHERE, 0, 0, 0], Breaks(5)),
    Call(0, 2, &[0xE000_0010, 0], Returns(0, &[])),
    Call(0, 2, &[0, 0], Returns(0, &[])),
    Call(1, 2, &[0xE000_0010, 0], Breaks(5)),
];

#[test]
fn the_wrapper_has_one_handle(rt: HostRuntime) {
    assert!(rt; passes(rt.alloc(), &[(Handler::DriverEntry, WRAPPER)]));
}

/// All words of the characteristics behind the version are the address of code.
fn put_handlers(world: &mut World) -> bool {
    for k in 1..27u32 {
        if world
            .memory
            .write(Addr(AREA + 4 * k), &CODE.to_le_bytes())
            .is_err()
        {
            return false;
        }
    }
    true
}

const WRAPPER_HANDLE: u32 = 0xE000_0010;

const BAD_VERSION: u32 = 0xC001_0004;

const BAD_CHARACTERISTICS: u32 = 0xC001_0005;

/// The address of no handler, and of one.
const ABSENT: &[u8] = &[0, 0, 0, 0];

const PRESENT: &[u8] = &[0, 0x10, 0x10, 0x80];

/// Characteristics of 5.0 that lack what can't be left out, or are no such thing.
const REFUSED: &[Step] = &[
    Put(AREA, &[5, 2]),
    Call(
        0,
        3,
        &[WRAPPER_HANDLE, AREA, 108],
        Returns(BAD_VERSION, &[]),
    ),
    Put(AREA, &[4, 0]),
    Call(
        0,
        3,
        &[WRAPPER_HANDLE, AREA, 108],
        Returns(BAD_VERSION, &[]),
    ),
    Put(AREA, &[5, 0]),
    Call(
        0,
        3,
        &[WRAPPER_HANDLE, AREA, 95],
        Returns(BAD_CHARACTERISTICS, &[]),
    ),
    Call(
        0,
        3,
        &[WRAPPER_HANDLE, AREA, 0],
        Returns(BAD_CHARACTERISTICS, &[]),
    ),
    Put(AREA, &[5, 1]),
    Call(
        0,
        3,
        &[WRAPPER_HANDLE, AREA, 107],
        Returns(BAD_CHARACTERISTICS, &[]),
    ),
    Put(AREA + 104, &[0, 0x10, 0, 0xF0]),
    Call(
        0,
        3,
        &[WRAPPER_HANDLE, AREA, 108],
        Returns(BAD_CHARACTERISTICS, &[]),
    ),
    Put(AREA, &[5, 0]),
    Put(AREA + 20, ABSENT),
    Call(
        0,
        3,
        &[WRAPPER_HANDLE, AREA, 96],
        Returns(BAD_CHARACTERISTICS, &[]),
    ),
    Put(AREA + 20, PRESENT),
    Put(AREA + 28, ABSENT),
    Call(
        0,
        3,
        &[WRAPPER_HANDLE, AREA, 96],
        Returns(BAD_CHARACTERISTICS, &[]),
    ),
    Put(AREA + 28, PRESENT),
    Put(AREA + 36, ABSENT),
    Call(
        0,
        3,
        &[WRAPPER_HANDLE, AREA, 96],
        Returns(BAD_CHARACTERISTICS, &[]),
    ),
    Put(AREA + 36, PRESENT),
    Put(AREA + 44, ABSENT),
    Call(
        0,
        3,
        &[WRAPPER_HANDLE, AREA, 96],
        Returns(BAD_CHARACTERISTICS, &[]),
    ),
    Put(AREA + 44, PRESENT),
    Put(AREA + 52, ABSENT),
    Call(
        0,
        3,
        &[WRAPPER_HANDLE, AREA, 96],
        Returns(BAD_CHARACTERISTICS, &[]),
    ),
    Put(AREA + 52, PRESENT),
    Put(AREA + 48, ABSENT),
    Put(AREA + 64, ABSENT),
    Call(
        0,
        3,
        &[WRAPPER_HANDLE, AREA, 96],
        Returns(BAD_CHARACTERISTICS, &[]),
    ),
    Put(AREA + 64, &[0, 0x10, 0, 0xF0]),
    Call(
        0,
        3,
        &[WRAPPER_HANDLE, AREA, 96],
        Returns(BAD_CHARACTERISTICS, &[]),
    ),
    Put(AREA + 64, PRESENT),
    Call(0, 3, &[WRAPPER_HANDLE, NOWHERE, 96], Breaks(9)),
    Call(0, 3, &[WRAPPER_HANDLE, AREA + 0xFA1, 96], Breaks(9)),
    Call(1, 3, &[WRAPPER_HANDLE, NOWHERE, 96], Breaks(5)),
];

/// What no DriverEntry registers.
const ELSEWHERE: &[Step] = &[Call(
    0,
    3,
    &[WRAPPER_HANDLE, NOWHERE, 96],
    Returns(0xC000_0001, &[]),
)];

/// Send alone may be missing, and so may what 5.0 has not; a second time nothing is looked at.
const REGISTERED: &[Step] = &[
    Call(0, 3, &[WRAPPER_HANDLE, AREA, 96], Returns(0, &[])),
    Call(0, 3, &[WRAPPER_HANDLE, AREA, 96], Returns(0xC000_0001, &[])),
    Call(
        0,
        3,
        &[WRAPPER_HANDLE, NOWHERE, 96],
        Returns(0xC000_0001, &[]),
    ),
];

const MINIPORT: &[Part] = &[
    (Handler::DriverEntry, REFUSED),
    (Handler::Initialize, ELSEWHERE),
    (Handler::DriverEntry, REGISTERED),
];

fn is_registered(world: &World) -> bool {
    match world.miniport {
        Some(kept) => {
            kept.minor == 0
                && kept.words[5] == CODE
                && kept.words[12] == 0
                && kept.words[16] == CODE
                && kept.words[23] == CODE
                && kept.words[26] == 0
        }
        None => false,
    }
}

fn registers(alloc: Global) -> bool {
    match world(alloc, b"") {
        Some(mut world) => {
            put_handlers(&mut world)
                && first_wrong(alloc, &mut world, MINIPORT).is_none()
                && is_registered(&world)
        }
        None => false,
    }
}

#[test]
fn a_miniport_is_registered_once(rt: HostRuntime) {
    assert!(rt; registers(rt.alloc()));
}
