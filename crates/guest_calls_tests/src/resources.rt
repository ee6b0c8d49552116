//! Imports 11 to 15: an adapter's ports, and its interrupt.

use crate::replies::Comes::{Breaks, Returns, Waits};
use crate::steps::Step::{Call, Serves};
use crate::steps::{Step, passes};
use crate::worlds::{CODE, HANDLE, LEAVE, NOWHERE, OTHER_HANDLE, STATUS};
use guest_calls::resumed;
use guest_world::Reply;
use log_fields::Handler;

/// NDIS_STATUS_FAILURE.
const FAILURE: u32 = 0xC000_0001;

const PORTS: &[Step] = &[
    Call(
        0,
        11,
        &[STATUS, HANDLE, 0x310, 16],
        Returns(0, &[(STATUS, &[0x10, 3, 0, 0])]),
    ),
    Call(
        0,
        11,
        &[STATUS, HANDLE, 0x300, 32],
        Returns(0, &[(STATUS, &[0, 3, 0, 0])]),
    ),
    Call(0, 11, &[NOWHERE, HANDLE, 0x310, 17], Returns(FAILURE, &[])),
    Call(0, 11, &[NOWHERE, HANDLE, 0x2FF, 1], Returns(FAILURE, &[])),
    Call(0, 11, &[NOWHERE, HANDLE, 0x300, 33], Returns(FAILURE, &[])),
    Call(
        0,
        11,
        &[NOWHERE, HANDLE, 0x1_0300, 1],
        Returns(FAILURE, &[]),
    ),
    Call(
        0,
        11,
        &[NOWHERE, HANDLE, 0x300, 0xFFFF_FFFF],
        Returns(FAILURE, &[]),
    ),
    Call(0, 11, &[CODE, HANDLE, 0x300, 32], Breaks(9)),
    Call(0, 11, &[STATUS, OTHER_HANDLE, 0x300, 32], Breaks(9)),
    Call(1, 11, &[STATUS, OTHER_HANDLE, 0x300, 32], Breaks(5)),
    Call(0, 12, &[HANDLE, 0x300, 32, 0x300], Returns(0, &[])),
    Call(0, 12, &[OTHER_HANDLE, 0x300, 32, 0x300], Breaks(9)),
    Call(1, 12, &[OTHER_HANDLE, 0x300, 32, 0x300], Breaks(5)),
];

#[test]
fn a_range_lies_in_the_ports_of_the_adapter(rt: HostRuntime) {
    assert!(rt; passes(rt.alloc(), &[(Handler::Initialize, PORTS)]));
}

const OBJECT: u32 = 0x8200_0200;

const INTERRUPT: &[Step] = &[
    Call(0, 15, &[OBJECT, CODE, 7], Breaks(9)),
    Call(0, 14, &[OBJECT], Breaks(9)),
    Call(0, 13, &[OBJECT, OTHER_HANDLE, 5, 22, 1, 0, 0], Breaks(9)),
    Call(1, 13, &[OBJECT, OTHER_HANDLE, 5, 22, 1, 0, 0], Breaks(5)),
    Call(
        0,
        13,
        &[OBJECT, HANDLE, 6, 22, 1, 0, 0],
        Returns(FAILURE, &[]),
    ),
    Call(
        0,
        13,
        &[OBJECT, HANDLE, 0x105, 22, 1, 0, 0],
        Returns(FAILURE, &[]),
    ),
    Call(0, 15, &[OBJECT, CODE, 7], Breaks(9)),
    Call(0, 13, &[OBJECT, HANDLE, 5, 22, 0, 0, 1], Returns(0, &[])),
    Serves(OBJECT, false),
    Call(
        0,
        13,
        &[OBJECT, HANDLE, 5, 22, 0, 0x100, 0],
        Returns(0, &[]),
    ),
    Serves(OBJECT, true),
    Call(0, 13, &[OBJECT, HANDLE, 5, 22, 1, 0, 0], Returns(0, &[])),
    Call(2, 15, &[OBJECT, CODE, 7], Waits),
    Call(
        0,
        13,
        &[OBJECT + 8, HANDLE, 6, 22, 1, 0, 0],
        Returns(FAILURE, &[]),
    ),
    Serves(OBJECT, true),
    Call(0, 15, &[OBJECT, CODE, 7], Waits),
    Call(0, 15, &[OBJECT, LEAVE, 7], Breaks(9)),
    Call(0, 15, &[OBJECT + 8, CODE, 7], Breaks(9)),
    Call(3, 15, &[OBJECT + 8, CODE, 7], Breaks(5)),
    Call(0, 14, &[OBJECT + 8], Breaks(9)),
    Call(1, 14, &[OBJECT + 8], Breaks(5)),
    Call(0, 14, &[OBJECT], Returns(0, &[])),
    Call(0, 15, &[OBJECT, CODE, 7], Breaks(9)),
    Call(0, 14, &[OBJECT], Breaks(9)),
];

#[test]
fn an_interrupt_is_served_while_it_is_registered(rt: HostRuntime) {
    assert!(rt; passes(rt.alloc(), &[(Handler::Initialize, INTERRUPT)]));
}

/// Whether a reply is that of a call which has waited.
fn is_of_waited(reply: &Reply, eax: u32) -> bool {
    reply.eax == eax && reply.cost == 1 && reply.writes.is_empty() && reply.sent.len() == 0
}

#[test]
fn a_call_that_has_waited_returns(rt: HostRuntime) {
    assert!(rt; is_of_waited(&resumed(rt.alloc(), 15, 0xFE), 0xFE));
    assert!(rt; is_of_waited(&resumed(rt.alloc(), 20, 0xFE), 0));
}
