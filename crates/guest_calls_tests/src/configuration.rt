//! Imports 6 to 10 and 51: what is kept of an adapter, its parameters and its resources.

use crate::replies::Comes::{Breaks, Returns};
use crate::steps::Step::{Call, Fill, Kept, Plain, Put};
use crate::steps::{Step, passes, passes_with};
use crate::worlds::{
    AREA, CODE, FAILURE, FOURTH, HANDLE, NOWHERE, OTHER_HANDLE, RESOURCES, STATUS, THIRD, VALUE,
    ZERO,
};
use log_fields::Handler;

const ELSEWHERE: &[Step] = &[Call(0, 6, &[HANDLE, 7, 3, 0x20, 1], Returns(0, &[])), Plain];

const ATTRIBUTES: &[Step] = &[
    Call(0, 6, &[OTHER_HANDLE, 7, 3, 0x20, 1], Breaks(9)),
    Call(0, 6, &[HANDLE + 4, 7, 3, 0x20, 1], Breaks(9)),
    Call(1, 6, &[OTHER_HANDLE, 7, 3, 0x20, 1], Breaks(5)),
    Plain,
    Call(0, 6, &[HANDLE, 7, 0, 0x2F, 1], Returns(0, &[])),
    Kept(7, 2_000_000, true),
    Call(0, 6, &[HANDLE, 8, 86_400, 0xFFFF_FFDF, 1], Returns(0, &[])),
    Kept(8, 86_400_000_000, false),
    Call(0, 6, &[HANDLE, 9, 1, 0x20, 1], Returns(0, &[])),
    Kept(9, 1_000_000, true),
    Call(0, 6, &[HANDLE, 9, 0xFFFF_FFFF, 0, 1], Returns(0, &[])),
    Kept(9, 86_400_000_000, false),
];

const OF_NO_ADAPTER: &[Step] = &[Call(0, 6, &[HANDLE, 7, 3, 0x20, 1], Breaks(9))];

#[test]
fn attributes_are_kept_inside_initialize(rt: HostRuntime) {
    assert!(rt;
        passes(
            rt.alloc(),
            &[
                (Handler::HandleInterrupt, ELSEWHERE),
                (Handler::DriverEntry, OF_NO_ADAPTER),
                (Handler::Initialize, ATTRIBUTES),
            ]
        )
    );
}

/// What the configuration of adapter 0 is opened with.
const CONTEXT: u32 = 0xE000_1000;

/// The handle of adapter 0's configuration.
const OPENED: u32 = 0xE000_2000;

/// Where the counted string of a keyword stands, and its characters.
const KEYWORD: u32 = AREA;

const TEXT: u32 = AREA + 0x10;

const OPENING: Step = Call(
    0,
    7,
    &[STATUS, VALUE, CONTEXT],
    Returns(0, &[(STATUS, ZERO), (VALUE, &[0, 0x20, 0, 0xE0])]),
);

const OPEN: &[Step] = &[
    Call(0, 8, &[STATUS, VALUE, OPENED, KEYWORD, 0], Breaks(9)),
    Call(0, 9, &[OPENED], Breaks(9)),
    Call(0, 10, &[STATUS, VALUE, THIRD, OPENED], Breaks(9)),
    Call(0, 7, &[STATUS, VALUE, CONTEXT + 1], Breaks(9)),
    Call(0, 7, &[STATUS, VALUE, HANDLE], Breaks(9)),
    Call(0, 7, &[CODE, VALUE, CONTEXT], Breaks(9)),
    Call(0, 7, &[STATUS, CODE, CONTEXT], Breaks(9)),
    Call(1, 7, &[CODE, VALUE, CONTEXT], Breaks(5)),
    OPENING,
    Call(0, 9, &[OPENED + 1], Breaks(9)),
    Call(1, 9, &[OPENED + 1], Breaks(5)),
    Call(0, 9, &[OPENED], Returns(0, &[])),
    Call(0, 9, &[OPENED], Returns(0, &[])),
    OPENING,
];

#[test]
fn a_configuration_is_opened_and_closed(rt: HostRuntime) {
    assert!(rt; passes(rt.alloc(), &[(Handler::Initialize, OPEN)]));
}

/// Blocks stand one behind the other, at multiples of 16.
const VALUES: &[Step] = &[
    OPENING,
    Put(KEYWORD, &[26, 0, 255, 0, 0x10, 0x90, 0, 0x82]),
    Put(TEXT, b"I\0O\0B\0A\0S\0E\0a\0d\0d\0r\0e\0s\0s\0"),
    Call(
        0,
        8,
        &[STATUS, VALUE, OPENED, KEYWORD, 0],
        Returns(
            0,
            &[
                (0x8100_0000, &[0, 0, 0, 0, 0x2C, 1, 0, 0]),
                (STATUS, ZERO),
                (VALUE, &[0, 0, 0, 0x81]),
            ],
        ),
    ),
    Call(
        0,
        8,
        &[STATUS, VALUE, OPENED, KEYWORD, 1],
        Returns(
            0,
            &[
                (0x8100_0010, &[1, 0, 0, 0, 0, 3, 0, 0]),
                (STATUS, ZERO),
                (VALUE, &[0x10, 0, 0, 0x81]),
            ],
        ),
    ),
    Call(
        0,
        8,
        &[STATUS, VALUE, OPENED, KEYWORD, 2],
        Returns(
            0,
            &[
                (
                    0x8100_0020,
                    &[
                        2, 0, 0, 0, 6, 0, 6, 0, 0x2C, 0, 0, 0x81, b'3', 0, b'0', 0, b'0', 0,
                    ],
                ),
                (STATUS, ZERO),
                (VALUE, &[0x20, 0, 0, 0x81]),
            ],
        ),
    ),
    Call(
        0,
        8,
        &[STATUS, VALUE, OPENED, KEYWORD, 3],
        Returns(0, &[(STATUS, FAILURE)]),
    ),
    Call(
        0,
        8,
        &[STATUS, NOWHERE, OPENED, KEYWORD, 0xFFFF_FFFF],
        Returns(0, &[(STATUS, FAILURE)]),
    ),
    // Without its last character, and with half of it.
    Put(KEYWORD, &[24, 0]),
    Call(
        0,
        8,
        &[STATUS, NOWHERE, OPENED, KEYWORD, 0],
        Returns(0, &[(STATUS, FAILURE)]),
    ),
    Put(KEYWORD, &[25, 0]),
    Call(
        0,
        8,
        &[STATUS, NOWHERE, OPENED, KEYWORD, 0],
        Returns(0, &[(STATUS, FAILURE)]),
    ),
];

#[test]
fn a_text_is_read_as_each_kind(rt: HostRuntime) {
    assert!(rt; passes(rt.alloc(), &[(Handler::Initialize, VALUES)]));
}

/// A number as it is, and no string of it.
const NUMBERS: &[Step] = &[
    OPENING,
    Put(KEYWORD, &[10, 0, 0, 0, 0x10, 0x90, 0, 0x82]),
    Put(TEXT, b"s\0P\0e\0e\0d\0"),
    Call(
        0,
        8,
        &[STATUS, VALUE, OPENED, KEYWORD, 0],
        Returns(
            0,
            &[
                (0x8100_0000, &[0, 0, 0, 0, 10, 0, 0, 0]),
                (STATUS, ZERO),
                (VALUE, &[0, 0, 0, 0x81]),
            ],
        ),
    ),
    Call(
        0,
        8,
        &[STATUS, VALUE, OPENED, KEYWORD, 1],
        Returns(
            0,
            &[
                (0x8100_0010, &[1, 0, 0, 0, 10, 0, 0, 0]),
                (STATUS, ZERO),
                (VALUE, &[0x10, 0, 0, 0x81]),
            ],
        ),
    ),
    Call(
        0,
        8,
        &[STATUS, VALUE, OPENED, KEYWORD, 2],
        Returns(0, &[(STATUS, FAILURE)]),
    ),
    // The largest number, and one more.
    Put(KEYWORD, &[8, 0]),
    Put(TEXT, b"M\0o\0s\0t\0"),
    Call(
        0,
        8,
        &[STATUS, VALUE, OPENED, KEYWORD, 0],
        Returns(
            0,
            &[
                (0x8100_0020, &[0, 0, 0, 0, 255, 255, 255, 255]),
                (STATUS, ZERO),
                (VALUE, &[0x20, 0, 0, 0x81]),
            ],
        ),
    ),
    Put(TEXT, b"M\0o\0r\0e\0"),
    Call(
        0,
        8,
        &[STATUS, VALUE, OPENED, KEYWORD, 0],
        Returns(0, &[(STATUS, FAILURE)]),
    ),
    Put(TEXT, b"S\0i\0g\0n\0"),
    Call(
        0,
        8,
        &[STATUS, VALUE, OPENED, KEYWORD, 0],
        Returns(0, &[(STATUS, FAILURE)]),
    ),
    // Hexadecimal digits, without a prefix.
    Put(KEYWORD, &[6, 0]),
    Put(TEXT, b"H\0e\0x\0"),
    Call(
        0,
        8,
        &[STATUS, VALUE, OPENED, KEYWORD, 0],
        Returns(0, &[(STATUS, FAILURE)]),
    ),
    Call(
        0,
        8,
        &[STATUS, VALUE, OPENED, KEYWORD, 1],
        Returns(
            0,
            &[
                (0x8100_0030, &[1, 0, 0, 0, 255, 0, 0, 0]),
                (STATUS, ZERO),
                (VALUE, &[0x30, 0, 0, 0x81]),
            ],
        ),
    ),
    Put(KEYWORD, &[12, 0]),
    Put(TEXT, b"P\0r\0e\0f\0i\0x\0"),
    Call(
        0,
        8,
        &[STATUS, VALUE, OPENED, KEYWORD, 1],
        Returns(0, &[(STATUS, FAILURE)]),
    ),
    // No digits, and no characters.
    Put(KEYWORD, &[10, 0]),
    Put(TEXT, b"E\0m\0p\0t\0y\0"),
    Call(
        0,
        8,
        &[STATUS, VALUE, OPENED, KEYWORD, 0],
        Returns(0, &[(STATUS, FAILURE)]),
    ),
    Call(
        0,
        8,
        &[STATUS, VALUE, OPENED, KEYWORD, 2],
        Returns(
            0,
            &[
                (0x8100_0040, &[2, 0, 0, 0, 0, 0, 0, 0, 0x4C, 0, 0, 0x81]),
                (STATUS, ZERO),
                (VALUE, &[0x40, 0, 0, 0x81]),
            ],
        ),
    ),
];

#[test]
fn numbers_are_those_below_2_to_the_32(rt: HostRuntime) {
    assert!(rt; passes(rt.alloc(), &[(Handler::Initialize, NUMBERS)]));
}

/// The keyword is there, but something else is not as it must be.
const BAD_READS: &[Step] = &[
    OPENING,
    Put(KEYWORD, &[10, 0, 0, 0, 0x10, 0x90, 0, 0x82]),
    Put(TEXT, b"S\0p\0e\0e\0d\0"),
    Call(0, 8, &[CODE, VALUE, OPENED, KEYWORD, 0], Breaks(9)),
    Call(0, 8, &[STATUS, CODE, OPENED, KEYWORD, 0], Breaks(9)),
    Call(0, 8, &[STATUS, VALUE, OPENED + 1, KEYWORD, 0], Breaks(9)),
    Call(0, 8, &[STATUS, VALUE, CONTEXT, KEYWORD, 0], Breaks(9)),
    Call(0, 8, &[STATUS, VALUE, OPENED, 0x8200_9FF9, 0], Breaks(9)),
    Call(1, 8, &[STATUS, VALUE, OPENED, NOWHERE, 0], Breaks(5)),
    // Characters that can't be read, also of a kind that there is not.
    Put(KEYWORD, &[2, 0, 0, 0, 0xFF, 0x9F, 0, 0x82]),
    Call(0, 8, &[STATUS, VALUE, OPENED, KEYWORD, 0], Breaks(9)),
    Call(0, 8, &[STATUS, VALUE, OPENED, KEYWORD, 3], Breaks(9)),
    Put(KEYWORD, &[0, 0, 0, 0, 0, 1, 0, 0]),
    Call(
        0,
        8,
        &[STATUS, VALUE, OPENED, KEYWORD, 0],
        Returns(0, &[(STATUS, FAILURE)]),
    ),
];

#[test]
fn what_a_read_names_is_there(rt: HostRuntime) {
    assert!(rt; passes(rt.alloc(), &[(Handler::Initialize, BAD_READS)]));
}

/// A block takes all of the guest pool but 16 bytes.
const FULL: &[Step] = &[
    OPENING,
    Put(KEYWORD, &[10, 0, 0, 0, 0x10, 0x90, 0, 0x82]),
    Put(TEXT, b"S\0p\0e\0e\0d\0"),
    Fill(0x7F_FFF0),
    Call(
        0,
        8,
        &[STATUS, VALUE, OPENED, KEYWORD, 0],
        Returns(
            0,
            &[
                (0x817F_FFF0, &[0, 0, 0, 0, 10, 0, 0, 0]),
                (STATUS, ZERO),
                (VALUE, &[0xF0, 0xFF, 0x7F, 0x81]),
            ],
        ),
    ),
    Call(
        0,
        8,
        &[STATUS, NOWHERE, OPENED, KEYWORD, 0],
        Returns(0, &[(STATUS, RESOURCES)]),
    ),
    Call(
        0,
        8,
        &[STATUS, NOWHERE, OPENED, KEYWORD, 2],
        Returns(0, &[(STATUS, FAILURE)]),
    ),
    Call(
        0,
        10,
        &[STATUS, NOWHERE, NOWHERE, OPENED],
        Returns(0, &[(STATUS, RESOURCES)]),
    ),
];

#[test]
fn without_room_there_is_no_value(rt: HostRuntime) {
    assert!(rt; passes(rt.alloc(), &[(Handler::Initialize, FULL)]));
}

const ADDRESS: &[Step] = &[
    OPENING,
    Call(
        0,
        10,
        &[STATUS, VALUE, THIRD, OPENED],
        Returns(
            0,
            &[
                (0x8100_0000, &[2, 0, 0, 0, 0, 0xAB]),
                (STATUS, ZERO),
                (VALUE, &[0, 0, 0, 0x81]),
                (THIRD, &[6, 0, 0, 0]),
            ],
        ),
    ),
    Call(0, 10, &[CODE, VALUE, THIRD, OPENED], Breaks(9)),
    Call(0, 10, &[STATUS, CODE, THIRD, OPENED], Breaks(9)),
    Call(0, 10, &[STATUS, VALUE, CODE, OPENED], Breaks(9)),
    Call(0, 10, &[STATUS, VALUE, THIRD, OPENED + 1], Breaks(9)),
    Call(1, 10, &[CODE, VALUE, THIRD, OPENED], Breaks(5)),
];

const NO_ADDRESS: &[Step] = &[
    OPENING,
    Call(
        0,
        10,
        &[STATUS, NOWHERE, NOWHERE, OPENED],
        Returns(0, &[(STATUS, FAILURE)]),
    ),
];

#[test]
fn a_network_address_is_six_bytes(rt: HostRuntime) {
    assert!(rt; passes(rt.alloc(), &[(Handler::Initialize, ADDRESS)]));
}

#[test]
fn other_texts_are_no_network_address(rt: HostRuntime) {
    let parts = &[(Handler::Initialize, NO_ADDRESS)];
    assert!(rt; passes_with(rt.alloc(), b"0200000000a", parts));
    assert!(rt; passes_with(rt.alloc(), b"0200000000aG", parts));
    assert!(rt; passes_with(rt.alloc(), b"0200000000aBc", parts));
}

const LIST: &[u8] = &[
    1, 0, 1, 0, 2, 0, 0, 0, 1, 1, 1, 0, 0, 3, 0, 0, 0, 0, 0, 0, 32, 0, 0, 0, 2, 1, 1, 0, 5, 0, 0,
    0, 5, 0, 0, 0, 1, 0, 0, 0,
];

const LISTED: &[Step] = &[
    Put(FOURTH, &[39, 0, 0, 0]),
    Call(
        0,
        51,
        &[STATUS, CONTEXT, NOWHERE, FOURTH],
        Returns(0, &[(STATUS, RESOURCES), (FOURTH, &[40, 0, 0, 0])]),
    ),
    Call(
        0,
        51,
        &[STATUS, CONTEXT, AREA, FOURTH],
        Returns(0, &[(STATUS, ZERO), (AREA, LIST)]),
    ),
    Put(FOURTH, &[0xFF, 0xFF, 0xFF, 0xFF]),
    Call(
        0,
        51,
        &[STATUS, CONTEXT, AREA, FOURTH],
        Returns(0, &[(STATUS, ZERO), (AREA, LIST)]),
    ),
    Call(0, 51, &[STATUS, CONTEXT, 0x8200_9FD9, FOURTH], Breaks(9)),
    Call(0, 51, &[CODE, CONTEXT, AREA, FOURTH], Breaks(9)),
    Call(0, 51, &[STATUS, CONTEXT + 1, AREA, FOURTH], Breaks(9)),
    Call(0, 51, &[STATUS, CONTEXT, AREA, NOWHERE], Breaks(9)),
    Call(0, 51, &[STATUS, CONTEXT, AREA, CODE], Breaks(9)),
    Call(1, 51, &[STATUS, CONTEXT, AREA, NOWHERE], Breaks(5)),
];

#[test]
fn resources_are_told_where_they_have_room(rt: HostRuntime) {
    assert!(rt; passes(rt.alloc(), &[(Handler::Initialize, LISTED)]));
}
