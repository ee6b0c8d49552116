//! Imports 21, 22, 62 and 63: blocks, memcpy and memset. A block stands at the first free place of
//! the guest pool.

use crate::replies::Comes::{Breaks, Costs, Returns};
use crate::steps::Step::{Call, Put};
use crate::steps::{Step, passes};
use crate::worlds::{AREA, CODE, NOWHERE, STATUS, ZERO};
use log_fields::Handler;

/// NDIS_STATUS_FAILURE.
const FAILURE: u32 = 0xC000_0001;

/// Where a stack's word is that a call returns to.
const RETURN_PLACE: u32 = 0x8200_3F00;

const BLOCKS: &[Step] = &[
    Call(
        2,
        21,
        &[STATUS, 5, 0x6B61_7453],
        Returns(0, &[(0x8100_0000, &[0; 5]), (STATUS, &[0, 0, 0, 0x81])]),
    ),
    Call(
        2,
        21,
        &[STATUS, 0, 0],
        Returns(0, &[(STATUS, &[0x10, 0, 0, 0x81])]),
    ),
    Call(
        2,
        21,
        &[RETURN_PLACE, 17, 0],
        Returns(
            0,
            &[(0x8100_0020, &[0; 17]), (RETURN_PLACE, &[0x20, 0, 0, 0x81])],
        ),
    ),
    Call(
        2,
        21,
        &[STATUS, 0x80_0000, 0],
        Returns(FAILURE, &[(STATUS, ZERO)]),
    ),
    Call(
        2,
        21,
        &[STATUS, 0xFFFF_FFFF, 0],
        Returns(FAILURE, &[(STATUS, ZERO)]),
    ),
    Call(2, 21, &[CODE, 0x80_0000, 0], Breaks(9)),
    Call(2, 21, &[CODE, 5, 0], Breaks(9)),
    Call(3, 21, &[CODE, 5, 0], Breaks(5)),
    Call(2, 22, &[0x8100_0004, 1, 0], Breaks(2)),
    Call(2, 22, &[NOWHERE, 5, 0], Breaks(2)),
    Call(3, 22, &[NOWHERE, 5, 0], Breaks(5)),
    Call(2, 22, &[0x8100_0000, 77, 7], Returns(0, &[])),
    Call(2, 22, &[0x8100_0000, 5, 0], Breaks(2)),
    // Another block takes its place, of zeros again.
    Put(0x8100_0000, &[1, 2, 3, 4, 5]),
    Call(
        0,
        21,
        &[STATUS, 5, 0],
        Returns(0, &[(0x8100_0000, &[0; 5]), (STATUS, &[0, 0, 0, 0x81])]),
    ),
];

#[test]
fn a_block_is_zeros_and_is_freed_once(rt: HostRuntime) {
    assert!(rt; passes(rt.alloc(), &[(Handler::Initialize, BLOCKS)]));
}

/// Copies upwards over themselves repeat the bytes in front; downwards they don't.
const COPIES: &[Step] = &[
    Put(AREA, &[1, 2, 3, 4, 5]),
    Call(
        26,
        62,
        &[AREA + 2, AREA, 5],
        Returns(AREA + 2, &[(AREA + 2, &[1, 2, 1, 2, 1])]),
    ),
    Put(AREA, &[1, 2, 3, 4, 5]),
    Call(
        26,
        62,
        &[AREA, AREA + 2, 3],
        Returns(AREA, &[(AREA, &[3, 4, 5])]),
    ),
    Put(AREA, &[1, 2, 3, 4, 5]),
    Call(
        0,
        62,
        &[AREA + 1, AREA, 16],
        Costs(2, AREA + 1, &[(AREA + 1, &[1; 16])]),
    ),
    Call(0, 62, &[AREA, AREA, 15], Returns(AREA, &[(AREA, &[1; 15])])),
    Call(0, 62, &[NOWHERE, NOWHERE, 0], Returns(NOWHERE, &[])),
    Call(
        0,
        62,
        &[AREA, CODE, 32],
        Costs(3, AREA, &[(AREA, &[0; 32])]),
    ),
    Call(0, 62, &[CODE, AREA, 1], Breaks(9)),
    Call(0, 62, &[AREA, NOWHERE, 1], Breaks(9)),
    Call(0, 62, &[AREA, AREA + 0xFF1, 16], Breaks(9)),
    Call(0, 62, &[AREA, AREA, 0xFFFF_FFFF], Breaks(9)),
    Call(27, 62, &[CODE, AREA, 1], Breaks(5)),
];

#[test]
fn a_copy_goes_from_the_first_byte_on(rt: HostRuntime) {
    assert!(rt; passes(rt.alloc(), &[(Handler::Isr, COPIES)]));
}

/// The last sets the word that it returns to.
const SETS: &[Step] = &[
    Call(
        26,
        63,
        &[AREA, 0xFFFF_FF07, 31],
        Costs(2, AREA, &[(AREA, &[7; 31])]),
    ),
    Call(
        26,
        63,
        &[AREA, 0x107, 32],
        Costs(3, AREA, &[(AREA, &[7; 32])]),
    ),
    Call(0, 63, &[NOWHERE, 7, 0], Returns(NOWHERE, &[])),
    Call(0, 63, &[CODE, 7, 1], Breaks(9)),
    Call(0, 63, &[0x817F_FFF0, 0, 17], Breaks(9)),
    Call(27, 63, &[CODE, 7, 1], Breaks(5)),
    Call(
        0,
        63,
        &[RETURN_PLACE - 4, 7, 12],
        Returns(RETURN_PLACE - 4, &[(RETURN_PLACE - 4, &[7; 12])]),
    ),
];

#[test]
fn bytes_are_set_to_the_low_byte(rt: HostRuntime) {
    assert!(rt; passes(rt.alloc(), &[(Handler::Isr, SETS)]));
}
