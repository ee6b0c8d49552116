//! Imports 53 to 60: accesses to ports. The card is new: its command register is 0x21, its interrupt
//! status 0x80, and its memory zeros.

use crate::replies::Comes::{Breaks, Costs, Returns, Sends};
use crate::steps::Step::{Call, Put};
use crate::steps::{Step, passes};
use crate::worlds::{AREA, CODE, NOWHERE};
use log_fields::Handler;

const ACCESSES: &[Step] = &[
    Call(26, 53, &[0x300], Returns(0x21, &[])),
    Call(26, 53, &[0x307], Returns(0x80, &[])),
    Call(26, 54, &[0x300], Returns(0x21, &[])),
    // The data port gives two bytes of ones while nothing is to be read.
    Call(26, 54, &[0x310], Returns(0xFFFF, &[])),
    Call(26, 55, &[0x300, 0xFFFF_FF22], Returns(0, &[])),
    Call(0, 53, &[0x300], Returns(0x22, &[])),
    Call(26, 56, &[0x303, 0x4746], Returns(0, &[])),
    Call(26, 53, &[0x303], Returns(0x46, &[])),
    // A read of the last port resets the card.
    Call(26, 53, &[0x31F], Returns(0, &[])),
    Call(26, 53, &[0x300], Returns(0x21, &[])),
    Call(27, 53, &[0x300], Breaks(5)),
    Call(27, 54, &[0x300], Breaks(5)),
    Call(27, 55, &[0x300, 0x22], Breaks(5)),
    Call(27, 56, &[0x300, 0x22], Breaks(5)),
];

#[test]
fn ports_of_the_card_are_read_and_written(rt: HostRuntime) {
    assert!(rt; passes(rt.alloc(), &[(Handler::Isr, ACCESSES)]));
}

const OUTSIDE: &[Step] = &[
    Call(26, 53, &[0x320], Returns(0xFF, &[])),
    Call(26, 53, &[0x2FF], Returns(0xFF, &[])),
    Call(26, 54, &[0x320], Returns(0xFFFF, &[])),
    Call(26, 53, &[0x1_0300], Returns(0xFF, &[])),
    Call(26, 55, &[0x320, 0x22], Returns(0, &[])),
    Call(26, 56, &[0x2FF, 0x2222], Returns(0, &[])),
    Call(26, 57, &[0x320, AREA, 3], Returns(0, &[(AREA, &[0xFF; 3])])),
    Call(
        26,
        58,
        &[0x320, AREA, 8],
        Costs(2, 0, &[(AREA, &[0xFF; 16])]),
    ),
    Call(26, 59, &[0x320, AREA, 16], Costs(2, 0, &[])),
    Call(26, 60, &[0x320, AREA, 8], Costs(2, 0, &[])),
    Call(26, 57, &[0x320, CODE, 1], Breaks(9)),
    Call(26, 59, &[0x320, NOWHERE, 1], Breaks(9)),
    Call(26, 53, &[0x300], Returns(0x21, &[])),
];

#[test]
fn a_port_of_no_card_reads_ones_and_takes_no_write(rt: HostRuntime) {
    assert!(rt; passes(rt.alloc(), &[(Handler::Isr, OUTSIDE)]));
}

/// DriverEntry has no card.
const WITHOUT_CARD: &[Step] = &[
    Call(0, 53, &[0x300], Returns(0xFF, &[])),
    Call(0, 54, &[0x300], Returns(0xFFFF, &[])),
    Call(0, 57, &[0x300, AREA, 2], Returns(0, &[(AREA, &[0xFF; 2])])),
    Call(0, 55, &[0x300, 0x22], Returns(0, &[])),
];

#[test]
fn driver_entry_has_no_card(rt: HostRuntime) {
    assert!(rt; passes(rt.alloc(), &[(Handler::DriverEntry, WITHOUT_CARD)]));
}

const INTO_BUFFERS: &[Step] = &[
    Call(26, 57, &[0x300, AREA, 3], Returns(0, &[(AREA, &[0x21; 3])])),
    Call(
        26,
        57,
        &[0x307, AREA, 16],
        Costs(2, 0, &[(AREA, &[0x80; 16])]),
    ),
    Call(
        26,
        58,
        &[0x307, AREA, 2],
        Returns(0, &[(AREA, &[0x80, 0, 0x80, 0])]),
    ),
    Call(
        26,
        58,
        &[0x310, AREA, 17],
        Costs(3, 0, &[(AREA, &[0xFF; 34])]),
    ),
    Call(26, 57, &[0x300, NOWHERE, 0], Returns(0, &[])),
    Call(26, 57, &[0x300, NOWHERE, 1], Breaks(9)),
    Call(26, 57, &[0x300, CODE, 1], Breaks(9)),
    Call(26, 58, &[0x300, AREA + 0xFFE, 2], Breaks(9)),
    Call(26, 58, &[0x300, AREA, 0x8000_0001], Breaks(9)),
    Call(27, 57, &[0x300, NOWHERE, 1], Breaks(5)),
    Call(27, 58, &[0x300, NOWHERE, 1], Breaks(5)),
];

#[test]
fn a_port_is_read_into_a_buffer(rt: HostRuntime) {
    assert!(rt; passes(rt.alloc(), &[(Handler::Isr, INTO_BUFFERS)]));
}

const FROM_BUFFERS: &[Step] = &[
    Put(AREA, &[0x46, 0x47, 0x48, 0x49]),
    Call(26, 59, &[0x303, AREA, 2], Returns(0, &[])),
    Call(26, 53, &[0x303], Returns(0x47, &[])),
    Call(26, 60, &[0x303, AREA, 2], Returns(0, &[])),
    Call(26, 53, &[0x303], Returns(0x48, &[])),
    Call(26, 59, &[0x303, CODE, 16], Costs(2, 0, &[])),
    Call(26, 53, &[0x303], Returns(0, &[])),
    Call(26, 59, &[0x303, NOWHERE, 0], Returns(0, &[])),
    Call(26, 59, &[0x303, NOWHERE, 1], Breaks(9)),
    Call(26, 60, &[0x303, AREA + 0xFFE, 2], Breaks(9)),
    Call(26, 60, &[0x303, AREA, 0x8000_0001], Breaks(9)),
    Call(27, 59, &[0x303, NOWHERE, 1], Breaks(5)),
    Call(27, 60, &[0x303, NOWHERE, 1], Breaks(5)),
];

#[test]
fn a_buffer_is_written_to_a_port(rt: HostRuntime) {
    assert!(rt; passes(rt.alloc(), &[(Handler::Isr, FROM_BUFFERS)]));
}

/// Eighteen bytes are written to the card's memory at 0x4000, and read back.
const THROUGH_DATA_PORT: &[Step] = &[
    Call(2, 55, &[0x300, 0x22], Returns(0, &[])),
    Call(2, 55, &[0x301, 0x46], Returns(0, &[])),
    Call(2, 55, &[0x302, 0x80], Returns(0, &[])),
    Call(2, 55, &[0x308, 0], Returns(0, &[])),
    Call(2, 55, &[0x309, 0x40], Returns(0, &[])),
    Call(2, 55, &[0x30A, 18], Returns(0, &[])),
    Call(2, 55, &[0x30B, 0], Returns(0, &[])),
    Call(2, 55, &[0x300, 0x12], Returns(0, &[])),
    Put(AREA, b"eighteen bytes now"),
    Call(2, 60, &[0x310, AREA, 9], Costs(2, 0, &[])),
    Call(2, 53, &[0x307], Returns(0x40, &[])),
    Call(2, 55, &[0x308, 0], Returns(0, &[])),
    Call(2, 55, &[0x309, 0x40], Returns(0, &[])),
    Call(2, 55, &[0x30A, 18], Returns(0, &[])),
    Call(2, 55, &[0x30B, 0], Returns(0, &[])),
    Call(2, 55, &[0x300, 0x0A], Returns(0, &[])),
    Call(
        2,
        57,
        &[0x310, AREA + 0x40, 2],
        Returns(0, &[(AREA + 0x40, b"ei")]),
    ),
    Call(
        2,
        58,
        &[0x310, AREA + 0x40, 9],
        Costs(2, 0, &[(AREA + 0x40, b"ghteen bytes now\xFF\xFF")]),
    ),
];

#[test]
fn buffers_go_through_the_data_port(rt: HostRuntime) {
    assert!(rt; passes(rt.alloc(), &[(Handler::Send, THROUGH_DATA_PORT)]));
}

/// Start; a frame of 14 bytes from page 0x40 on; transmit, once and twice in one call.
const SENDS: &[Step] = &[
    Call(2, 55, &[0x300, 0x22], Sends(1, &[])),
    Call(2, 55, &[0x304, 0x40], Sends(1, &[])),
    Call(2, 55, &[0x305, 14], Sends(1, &[])),
    Call(2, 55, &[0x306, 0], Sends(1, &[])),
    Call(2, 55, &[0x300, 0x26], Sends(1, &[&[0; 14]])),
    Call(2, 56, &[0x300, 0x26], Sends(1, &[&[0; 14]])),
    Put(AREA, &[0x26, 0x26]),
    Call(2, 59, &[0x300, AREA, 2], Sends(1, &[&[0; 14], &[0; 14]])),
    Call(2, 60, &[0x300, AREA, 1], Sends(1, &[&[0; 14]])),
    Call(2, 55, &[0x305, 13], Sends(1, &[])),
    Call(2, 55, &[0x300, 0x26], Sends(1, &[])),
];

#[test]
fn a_transmit_command_sends_a_frame(rt: HostRuntime) {
    assert!(rt; passes(rt.alloc(), &[(Handler::Send, SENDS)]));
}
