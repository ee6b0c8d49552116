//! Imports 16 to 20: timers, and sleep. The clock is at 500.

use crate::replies::Comes::{Breaks, Returns, Sleeps};
use crate::steps::Step::{Armed, Call, Fires, Idle};
use crate::steps::{Step, passes};
use crate::worlds::{CODE, FOREIGN, HANDLE, LEAVE, OTHER_HANDLE, VALUE};
use log_fields::Handler;

const TIMER: u32 = 0x8200_0200;

const TIMERS: &[Step] = &[
    Call(2, 17, &[TIMER, 1], Breaks(9)),
    Call(2, 18, &[TIMER, 1], Breaks(9)),
    Call(2, 19, &[TIMER, VALUE], Breaks(9)),
    Call(2, 16, &[TIMER, OTHER_HANDLE, CODE, 7], Breaks(9)),
    Call(2, 16, &[TIMER, HANDLE, LEAVE, 7], Breaks(9)),
    Call(3, 16, &[TIMER, HANDLE, LEAVE, 7], Breaks(5)),
    Call(2, 16, &[TIMER, HANDLE, CODE, 7], Returns(0, &[])),
    Idle(TIMER),
    Call(2, 17, &[TIMER, 0], Returns(0, &[])),
    Armed(TIMER, 500),
    Call(2, 17, &[TIMER, 1], Returns(0, &[])),
    Armed(TIMER, 1_500),
    Call(2, 17, &[TIMER, 86_400_000], Returns(0, &[])),
    Armed(TIMER, 86_400_000_500),
    Call(2, 17, &[TIMER, 86_399_999], Returns(0, &[])),
    Armed(TIMER, 86_399_999_500),
    Call(2, 17, &[TIMER, 0xFFFF_FFFF], Returns(0, &[])),
    Armed(TIMER, 86_400_000_500),
    // Initialized again, it stays armed.
    Call(0, 16, &[TIMER, HANDLE, CODE, 8], Returns(0, &[])),
    Armed(TIMER, 86_400_000_500),
    Call(2, 19, &[TIMER, CODE], Breaks(9)),
    Armed(TIMER, 86_400_000_500),
    Call(2, 19, &[TIMER, VALUE], Returns(0, &[(VALUE, &[1])])),
    Idle(TIMER),
    Call(2, 19, &[TIMER, VALUE], Returns(0, &[(VALUE, &[0])])),
    // Of another adapter.
    Call(2, 17, &[FOREIGN, 1], Breaks(9)),
    Call(2, 18, &[FOREIGN, 1], Breaks(9)),
    Call(2, 19, &[FOREIGN, VALUE], Breaks(9)),
    Call(3, 17, &[FOREIGN, 1], Breaks(5)),
    Call(3, 18, &[FOREIGN, 1], Breaks(5)),
    Call(3, 19, &[FOREIGN, VALUE], Breaks(5)),
    Idle(FOREIGN),
];

#[test]
fn timers_are_initialized_set_and_cancelled(rt: HostRuntime) {
    assert!(rt; passes(rt.alloc(), &[(Handler::Timer, TIMERS)]));
}

/// A timer that is set once is not armed when it has fired; a period is a millisecond at least, and a
/// day at most.
const PERIODS: &[Step] = &[
    Call(2, 16, &[TIMER, HANDLE, CODE, 7], Returns(0, &[])),
    Call(2, 17, &[TIMER, 0], Returns(0, &[])),
    Fires(TIMER),
    Idle(TIMER),
    Call(2, 18, &[TIMER, 0], Returns(0, &[])),
    Armed(TIMER, 500),
    Fires(TIMER),
    Armed(TIMER, 1_500),
    Call(2, 18, &[TIMER, 20], Returns(0, &[])),
    Armed(TIMER, 20_500),
    Call(2, 18, &[TIMER, 0xFFFF_FFFF], Returns(0, &[])),
    Armed(TIMER, 86_400_000_500),
];

#[test]
fn a_period_is_a_millisecond_at_least(rt: HostRuntime) {
    assert!(rt; passes(rt.alloc(), &[(Handler::Timer, PERIODS)]));
}

const SLEEP: &[Step] = &[
    Call(0, 20, &[50], Sleeps(550)),
    Call(0, 20, &[0], Sleeps(500)),
    Call(0, 20, &[0xFFFF_FFFF], Sleeps(4_294_967_795)),
    Call(1, 20, &[50], Breaks(5)),
];

#[test]
fn a_caller_sleeps(rt: HostRuntime) {
    assert!(rt; passes(rt.alloc(), &[(Handler::Initialize, SLEEP)]));
}
