//! Imports 39 to 50, 61 and 64: which words completions and indications need; the run-time.

use crate::replies::Comes::{Breaks, Costs, Returns};
use crate::steps::Step::Call;
use crate::steps::{Step, passes};
use crate::worlds::{AREA, CODE, HANDLE, NOWHERE, OTHER_HANDLE, STATUS, VALUE};
use log_fields::Handler;

/// The last send slot of the last driver.
const SLOT: u32 = 0x833F_F800;

const COMPLETIONS: &[Step] = &[
    Call(2, 39, &[HANDLE, SLOT, 0], Returns(0, &[])),
    Call(2, 39, &[HANDLE, 0x8300_0000, 0x103], Returns(0, &[])),
    Call(2, 39, &[HANDLE, SLOT + 128, 0], Breaks(2)),
    Call(2, 39, &[HANDLE, SLOT + 4, 0], Breaks(2)),
    Call(2, 39, &[HANDLE, SLOT + 0x800, 0], Breaks(2)),
    Call(2, 39, &[OTHER_HANDLE, SLOT + 128, 0], Breaks(9)),
    Call(3, 39, &[OTHER_HANDLE, SLOT + 128, 0], Breaks(5)),
    // A packet of a pool: it is completed too where it is live.
    Call(
        2,
        23,
        &[STATUS, VALUE, 1, 0],
        Returns(0, &[(STATUS, &[0; 4]), (VALUE, &[0, 0, 1, 0xE0])]),
    ),
    Call(2, 39, &[HANDLE, 0x8100_0000, 0], Breaks(2)),
];

#[test]
fn a_completed_packet_is_live(rt: HostRuntime) {
    assert!(rt; passes(rt.alloc(), &[(Handler::Send, COMPLETIONS)]));
}

/// An array that ends with its region, and one of nothing.
const ARRAYS: &[Step] = &[
    Call(2, 41, &[HANDLE, AREA, 0x400], Returns(0, &[])),
    Call(2, 41, &[HANDLE, CODE, 2], Returns(0, &[])),
    Call(2, 41, &[HANDLE, NOWHERE, 0], Returns(0, &[])),
    Call(2, 41, &[HANDLE, AREA, 0x401], Breaks(9)),
    Call(2, 41, &[HANDLE, AREA, 0x4000_0001], Breaks(9)),
    Call(2, 41, &[OTHER_HANDLE, AREA, 1], Breaks(9)),
    Call(3, 41, &[OTHER_HANDLE, AREA, 1], Breaks(5)),
];

#[test]
fn indications_ask_for_their_arrays(rt: HostRuntime) {
    assert!(rt; passes(rt.alloc(), &[(Handler::HandleInterrupt, ARRAYS)]));
}

const OF_ADAPTER: &[Step] = &[
    Call(2, 40, &[HANDLE], Returns(0, &[])),
    Call(2, 40, &[OTHER_HANDLE], Breaks(9)),
    Call(2, 42, &[HANDLE, 0, 0], Returns(0, &[])),
    Call(2, 42, &[OTHER_HANDLE, 0, 0], Breaks(9)),
    Call(2, 43, &[HANDLE, 0x103], Returns(0, &[])),
    Call(2, 43, &[OTHER_HANDLE, 0], Breaks(9)),
    Call(2, 44, &[HANDLE, 0], Returns(0, &[])),
    Call(2, 44, &[OTHER_HANDLE, 0], Breaks(9)),
    Call(2, 45, &[HANDLE, 0x4001_000B, NOWHERE, 4], Returns(0, &[])),
    Call(2, 45, &[OTHER_HANDLE, 0, 0, 0], Breaks(9)),
    Call(2, 46, &[HANDLE], Returns(0, &[])),
    Call(2, 46, &[OTHER_HANDLE], Breaks(9)),
    Call(2, 49, &[HANDLE, 0, 0, NOWHERE, 4], Returns(0, &[])),
    Call(2, 49, &[OTHER_HANDLE, 0, 0, NOWHERE, 4], Breaks(9)),
    Call(2, 50, &[HANDLE, 1, 0], Returns(0, &[])),
    Call(2, 50, &[OTHER_HANDLE, 1, 0], Breaks(9)),
    Call(2, 47, &[HANDLE, 0, 0, NOWHERE, 14, 0, 0, 0], Breaks(12)),
    Call(2, 47, &[OTHER_HANDLE, 0, 0, 0, 0, 0, 0, 0], Breaks(9)),
    Call(2, 48, &[HANDLE], Breaks(12)),
    Call(2, 48, &[OTHER_HANDLE], Breaks(9)),
    Call(3, 40, &[OTHER_HANDLE], Breaks(5)),
    Call(3, 47, &[HANDLE, 0, 0, 0, 0, 0, 0, 0], Breaks(5)),
    Call(3, 48, &[HANDLE], Breaks(5)),
];

#[test]
fn other_calls_name_their_adapter(rt: HostRuntime) {
    assert!(rt; passes(rt.alloc(), &[(Handler::HandleInterrupt, OF_ADAPTER)]));
}

const OF_DRIVER_ENTRY: &[Step] = &[
    Call(2, 40, &[HANDLE], Breaks(9)),
    Call(2, 40, &[0], Breaks(9)),
    Call(2, 47, &[HANDLE, 0, 0, 0, 0, 0, 0, 0], Breaks(9)),
];

#[test]
fn driver_entry_has_no_adapter(rt: HostRuntime) {
    assert!(rt; passes(rt.alloc(), &[(Handler::DriverEntry, OF_DRIVER_ENTRY)]));
}

const RUN_TIME: &[Step] = &[
    Call(26, 61, &[50], Costs(51, 0, &[])),
    Call(26, 61, &[0], Returns(0, &[])),
    Call(26, 61, &[0xFFFF_FFFF], Costs(0x1_0000_0000, 0, &[])),
    Call(27, 61, &[50], Breaks(5)),
    Call(26, 64, &[CODE], Returns(0, &[])),
    Call(0, 64, &[NOWHERE], Returns(0, &[])),
    Call(27, 64, &[NOWHERE], Breaks(5)),
];

#[test]
fn a_stall_costs_its_microseconds(rt: HostRuntime) {
    assert!(rt; passes(rt.alloc(), &[(Handler::Isr, RUN_TIME)]));
}
