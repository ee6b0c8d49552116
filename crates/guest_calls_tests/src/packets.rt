//! Imports 23 to 32 and 52: pools of packets and buffers, and what stands in their descriptors.
//! Descriptors stand one behind the other in their pool, a pool at the first free place.

use crate::replies::Comes::{Breaks, Returns};
use crate::steps::Step::{Call, Lend, Put};
use crate::steps::{Step, passes};
use crate::worlds::{AREA, CODE, FOURTH, NOWHERE, RESOURCES, STATUS, THIRD, VALUE, ZERO};
use log_fields::Handler;

/// The first pool, and the second.
const POOL: u32 = 0xE001_0000;

const BUFFERS: u32 = 0xE001_0001;

/// The first pool's descriptors.
const PACKET: u32 = 0x8100_0000;

const SECOND: u32 = 0x8100_0080;

/// A new packet: the offset of its out-of-band part, 72, at 30.
const NEW_PACKET: &[u8] = &[
    0, 0, 0, 0, 0, 0, 0, 0, 0, 0, 0, 0, 0, 0, 0, 0, 0, 0, 0, 0, 0, 0, 0, 0, 0, 0, 0, 0, 0, 0, 72,
    0, 0, 0, 0, 0, 0, 0, 0, 0, 0, 0, 0, 0, 0, 0, 0, 0, 0, 0, 0, 0, 0, 0, 0, 0, 0, 0, 0, 0, 0, 0, 0,
    0, 0, 0, 0, 0, 0, 0, 0, 0, 0, 0, 0, 0, 0, 0, 0, 0, 0, 0, 0, 0, 0, 0, 0, 0, 0, 0, 0, 0, 0, 0, 0,
    0, 0, 0, 0, 0, 0, 0, 0, 0, 0, 0, 0, 0, 0, 0, 0, 0, 0, 0, 0, 0, 0, 0, 0, 0, 0, 0, 0, 0, 0, 0, 0,
    0,
];

/// A pool of two packets.
const MAKES_PACKETS: Step = Call(
    2,
    23,
    &[STATUS, VALUE, 2, 16],
    Returns(0, &[(STATUS, ZERO), (VALUE, &[0, 0, 1, 0xE0])]),
);

/// Its first packet.
const GIVES_PACKET: Step = Call(
    2,
    25,
    &[STATUS, VALUE, POOL],
    Returns(
        0,
        &[
            (PACKET, NEW_PACKET),
            (STATUS, ZERO),
            (VALUE, &[0, 0, 0, 0x81]),
        ],
    ),
);

const NO_ROOM: &[Step] = &[
    Call(
        2,
        23,
        &[STATUS, VALUE, 0, 0],
        Returns(0, &[(STATUS, RESOURCES), (VALUE, ZERO)]),
    ),
    Call(
        2,
        23,
        &[STATUS, VALUE, 4097, 0],
        Returns(0, &[(STATUS, RESOURCES), (VALUE, ZERO)]),
    ),
    Call(
        2,
        27,
        &[STATUS, VALUE, 0],
        Returns(0, &[(STATUS, RESOURCES), (VALUE, ZERO)]),
    ),
    Call(
        2,
        27,
        &[STATUS, VALUE, 4097],
        Returns(0, &[(STATUS, RESOURCES), (VALUE, ZERO)]),
    ),
    Call(2, 23, &[CODE, VALUE, 2, 0], Breaks(9)),
    Call(2, 23, &[STATUS, CODE, 2, 0], Breaks(9)),
    Call(2, 27, &[CODE, VALUE, 2], Breaks(9)),
    Call(2, 27, &[STATUS, CODE, 2], Breaks(9)),
    Call(3, 23, &[CODE, VALUE, 2, 0], Breaks(5)),
    Call(3, 27, &[CODE, VALUE, 2], Breaks(5)),
];

#[test]
fn a_pool_has_1_to_4096_descriptors(rt: HostRuntime) {
    assert!(rt; passes(rt.alloc(), &[(Handler::Initialize, NO_ROOM)]));
}

const PACKETS: &[Step] = &[
    Call(2, 25, &[STATUS, VALUE, POOL], Breaks(2)),
    MAKES_PACKETS,
    Call(2, 29, &[STATUS, VALUE, POOL, AREA, 1], Breaks(2)),
    GIVES_PACKET,
    Call(
        2,
        25,
        &[STATUS, VALUE, POOL],
        Returns(
            0,
            &[
                (SECOND, NEW_PACKET),
                (STATUS, ZERO),
                (VALUE, &[0x80, 0, 0, 0x81]),
            ],
        ),
    ),
    Call(
        2,
        25,
        &[STATUS, VALUE, POOL],
        Returns(0, &[(STATUS, RESOURCES), (VALUE, ZERO)]),
    ),
    Call(2, 25, &[CODE, VALUE, NOWHERE], Breaks(9)),
    Call(2, 25, &[STATUS, CODE, NOWHERE], Breaks(9)),
    Call(3, 25, &[CODE, VALUE, NOWHERE], Breaks(5)),
    Call(2, 24, &[POOL], Breaks(2)),
    Call(2, 26, &[PACKET + 8], Breaks(2)),
    Call(2, 30, &[PACKET], Breaks(2)),
    Call(2, 22, &[PACKET, 128, 0], Breaks(2)),
    Call(3, 26, &[PACKET + 8], Breaks(5)),
    Lend(SECOND),
    Call(2, 26, &[SECOND], Breaks(2)),
    Call(2, 26, &[PACKET], Returns(0, &[])),
    Call(2, 26, &[PACKET], Breaks(2)),
    GIVES_PACKET,
];

#[test]
fn packets_are_allocated_and_freed(rt: HostRuntime) {
    assert!(rt; passes(rt.alloc(), &[(Handler::Initialize, PACKETS)]));
}

const BUFFER: u32 = 0x8100_0100;

/// A pool of two buffers, behind that of two packets.
const MAKES_BUFFERS: Step = Call(
    2,
    27,
    &[STATUS, VALUE, 2],
    Returns(0, &[(STATUS, ZERO), (VALUE, &[1, 0, 1, 0xE0])]),
);

/// Its first buffer, for 100 bytes at 0x81234567.
const GIVES_BUFFER: Step = Call(
    2,
    29,
    &[STATUS, VALUE, BUFFERS, 0x8123_4567, 100],
    Returns(
        0,
        &[
            (
                BUFFER,
                &[
                    0, 0, 0, 0, 32, 0, 4, 0, 0, 0, 0, 0, 0x67, 0x45, 0x23, 0x81, 0, 0x40, 0x23,
                    0x81, 100, 0, 0, 0, 0x67, 5, 0, 0, 0, 0, 0, 0,
                ],
            ),
            (STATUS, ZERO),
            (VALUE, &[0, 1, 0, 0x81]),
        ],
    ),
);

/// Its second, for 2^32 - 1 bytes.
const GIVES_SECOND: Step = Call(
    2,
    29,
    &[STATUS, VALUE, BUFFERS, 0, 0xFFFF_FFFF],
    Returns(
        0,
        &[
            (
                BUFFER + 32,
                &[
                    0, 0, 0, 0, 32, 0, 4, 0, 0, 0, 0, 0, 0, 0, 0, 0, 0, 0, 0, 0, 255, 255, 255,
                    255, 0, 0, 0, 0, 0, 0, 0, 0,
                ],
            ),
            (STATUS, ZERO),
            (VALUE, &[0x20, 1, 0, 0x81]),
        ],
    ),
);

const BUFFER_DESCRIPTORS: &[Step] = &[
    MAKES_PACKETS,
    MAKES_BUFFERS,
    GIVES_BUFFER,
    GIVES_SECOND,
    Call(
        2,
        29,
        &[STATUS, VALUE, BUFFERS, AREA, 1],
        Returns(0, &[(STATUS, RESOURCES), (VALUE, ZERO)]),
    ),
    Call(2, 25, &[STATUS, VALUE, BUFFERS], Breaks(2)),
    Call(2, 29, &[CODE, VALUE, NOWHERE, 0, 0], Breaks(9)),
    Call(2, 29, &[STATUS, CODE, NOWHERE, 0, 0], Breaks(9)),
    Call(3, 29, &[CODE, VALUE, NOWHERE, 0, 0], Breaks(5)),
    Call(2, 28, &[BUFFERS], Breaks(2)),
    Call(2, 26, &[BUFFER], Breaks(2)),
    Call(3, 30, &[NOWHERE], Breaks(5)),
    Call(2, 30, &[BUFFER], Returns(0, &[])),
    Call(2, 30, &[BUFFER], Breaks(2)),
    Call(2, 28, &[BUFFERS], Breaks(2)),
    Call(2, 30, &[BUFFER + 32], Returns(0, &[])),
    Call(3, 28, &[NOWHERE], Breaks(5)),
    Call(3, 24, &[NOWHERE], Breaks(5)),
    Call(2, 28, &[BUFFERS], Returns(0, &[])),
    Call(2, 28, &[BUFFERS], Breaks(2)),
    // Either call frees a pool of either kind.
    Call(2, 28, &[POOL], Returns(0, &[])),
    Call(2, 24, &[POOL], Breaks(2)),
];

#[test]
fn buffers_and_pools_are_allocated_and_freed(rt: HostRuntime) {
    assert!(rt; passes(rt.alloc(), &[(Handler::Initialize, BUFFER_DESCRIPTORS)]));
}

const UNCHAINED: &[Step] = &[
    MAKES_PACKETS,
    MAKES_BUFFERS,
    GIVES_PACKET,
    GIVES_BUFFER,
    GIVES_SECOND,
    // Without a buffer.
    Call(2, 31, &[PACKET, THIRD], Returns(0, &[(THIRD, ZERO)])),
    // Two buffers, the first of which is taken off.
    Put(PACKET + 8, &[0, 1, 0, 0x81]),
    Put(PACKET + 28, &[1]),
    Put(BUFFER, &[0x20, 1, 0, 0x81]),
    Call(
        2,
        31,
        &[PACKET, THIRD],
        Returns(
            0,
            &[
                (PACKET + 8, &[0x20, 1, 0, 0x81]),
                (PACKET + 28, &[0]),
                (THIRD, &[0, 1, 0, 0x81]),
            ],
        ),
    ),
    // Of a send slot.
    Put(0x8300_0008, &[0x80, 0, 0, 0x83]),
    Call(
        2,
        31,
        &[0x8300_0000, THIRD],
        Returns(
            0,
            &[
                (0x8300_0008, ZERO),
                (0x8300_001C, &[0]),
                (THIRD, &[0x80, 0, 0, 0x83]),
            ],
        ),
    ),
    // No packet of a pool or slot.
    Call(2, 31, &[SECOND, THIRD], Breaks(2)),
    Call(2, 31, &[0x8300_0080, THIRD], Breaks(2)),
    Call(2, 31, &[SECOND, CODE], Breaks(9)),
    Call(2, 31, &[NOWHERE, THIRD], Breaks(9)),
    Call(3, 31, &[NOWHERE, THIRD], Breaks(5)),
    // A buffer that can't be read.
    Put(PACKET + 8, &[0, 1, 0, 0]),
    Call(2, 31, &[PACKET, THIRD], Breaks(9)),
    Put(SECOND + 8, &[0, 1, 0, 0]),
    Call(2, 31, &[SECOND, THIRD], Breaks(9)),
];

#[test]
fn a_first_buffer_is_taken_off(rt: HostRuntime) {
    assert!(rt; passes(rt.alloc(), &[(Handler::Send, UNCHAINED)]));
}

const QUERIED: &[Step] = &[
    MAKES_PACKETS,
    MAKES_BUFFERS,
    GIVES_BUFFER,
    Call(
        2,
        32,
        &[BUFFER, THIRD, FOURTH],
        Returns(
            0,
            &[
                (THIRD, &[0x67, 0x45, 0x23, 0x81]),
                (FOURTH, &[100, 0, 0, 0]),
            ],
        ),
    ),
    Call(
        2,
        32,
        &[BUFFER, 0, FOURTH],
        Returns(0, &[(FOURTH, &[100, 0, 0, 0])]),
    ),
    // The buffer of a send slot; its packet is none.
    Call(
        2,
        32,
        &[0x8300_0080, 0, FOURTH],
        Returns(0, &[(FOURTH, ZERO)]),
    ),
    Call(2, 32, &[0x8300_0000, 0, FOURTH], Breaks(2)),
    Call(2, 32, &[BUFFER + 32, THIRD, FOURTH], Breaks(2)),
    Call(2, 32, &[BUFFER + 32, CODE, FOURTH], Breaks(9)),
    Call(2, 32, &[BUFFER + 32, THIRD, CODE], Breaks(9)),
    Call(2, 32, &[NOWHERE, THIRD, FOURTH], Breaks(9)),
    Call(3, 32, &[NOWHERE, THIRD, FOURTH], Breaks(5)),
];

#[test]
fn a_buffer_tells_its_bytes(rt: HostRuntime) {
    assert!(rt; passes(rt.alloc(), &[(Handler::Send, QUERIED)]));
}

const FIRST_BUFFERS: &[Step] = &[
    MAKES_PACKETS,
    MAKES_BUFFERS,
    GIVES_PACKET,
    GIVES_BUFFER,
    GIVES_SECOND,
    Call(
        2,
        52,
        &[PACKET, STATUS, VALUE, THIRD, FOURTH],
        Returns(
            0,
            &[(STATUS, ZERO), (VALUE, ZERO), (THIRD, ZERO), (FOURTH, ZERO)],
        ),
    ),
    // 100 and 2^32 - 1 bytes are 99, modulo 2^32.
    Put(PACKET + 8, &[0, 1, 0, 0x81]),
    Put(BUFFER, &[0x20, 1, 0, 0x81]),
    Call(
        2,
        52,
        &[PACKET, STATUS, VALUE, THIRD, FOURTH],
        Returns(
            0,
            &[
                (STATUS, &[0, 1, 0, 0x81]),
                (VALUE, &[0x67, 0x45, 0x23, 0x81]),
                (THIRD, &[100, 0, 0, 0]),
                (FOURTH, &[99, 0, 0, 0]),
            ],
        ),
    ),
    // The chain leads back to its first buffer, or to where nothing is.
    Put(BUFFER + 32, &[0, 1, 0, 0x81]),
    Call(2, 52, &[PACKET, STATUS, VALUE, THIRD, FOURTH], Breaks(9)),
    Put(BUFFER + 32, &[0, 1, 0, 0]),
    Call(2, 52, &[PACKET, STATUS, VALUE, THIRD, FOURTH], Breaks(9)),
    Put(BUFFER + 32, ZERO),
    Call(2, 52, &[PACKET, CODE, VALUE, THIRD, FOURTH], Breaks(9)),
    Call(2, 52, &[PACKET, STATUS, CODE, THIRD, FOURTH], Breaks(9)),
    Call(2, 52, &[PACKET, STATUS, VALUE, CODE, FOURTH], Breaks(9)),
    Call(2, 52, &[PACKET, STATUS, VALUE, THIRD, CODE], Breaks(9)),
    Call(2, 52, &[NOWHERE, STATUS, VALUE, THIRD, FOURTH], Breaks(9)),
    Call(2, 52, &[SECOND, STATUS, VALUE, THIRD, CODE], Breaks(9)),
    Call(2, 52, &[SECOND, STATUS, VALUE, THIRD, FOURTH], Breaks(2)),
    Call(3, 52, &[NOWHERE, STATUS, VALUE, THIRD, FOURTH], Breaks(5)),
    // Of a send slot.
    Call(
        2,
        52,
        &[0x8300_0000, STATUS, VALUE, THIRD, FOURTH],
        Returns(
            0,
            &[(STATUS, ZERO), (VALUE, ZERO), (THIRD, ZERO), (FOURTH, ZERO)],
        ),
    ),
];

#[test]
fn a_first_buffer_is_told_with_its_chain(rt: HostRuntime) {
    assert!(rt; passes(rt.alloc(), &[(Handler::Send, FIRST_BUFFERS)]));
}
