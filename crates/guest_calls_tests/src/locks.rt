//! Imports 4, 5 and 33 to 38: levels and spin locks.

use crate::replies::Comes::{Breaks, Returns, Spins};
use crate::steps::Step::{Call, Holding};
use crate::steps::{Step, passes};
use crate::worlds::{BUSY, LOCK, NOWHERE};
use log_fields::Handler;

const LEVELS: &[Step] = &[
    Call(0, 4, &[0x0000_0105], Returns(0, &[])),
    Call(5, 4, &[5], Returns(5, &[])),
    Call(6, 4, &[0xFFFF_FF05], Breaks(5)),
    Call(26, 4, &[26], Returns(26, &[])),
    Call(26, 4, &[255], Returns(26, &[])),
    Call(27, 4, &[27], Breaks(5)),
    Call(6, 5, &[0xFFFF_FF02], Returns(0, &[])),
    Call(2, 5, &[2], Returns(0, &[])),
    Call(2, 5, &[3], Breaks(5)),
    Call(27, 5, &[0], Breaks(5)),
];

#[test]
fn raises_answer_the_old_level_and_take_the_low_byte(rt: HostRuntime) {
    assert!(rt; passes(rt.alloc(), &[(Handler::Initialize, LEVELS)]));
}

/// A lock that nobody has made.
const UNMADE: u32 = 0x8200_0108;

const LOCKS: &[Step] = &[
    Call(2, 34, &[UNMADE], Breaks(6)),
    Call(2, 35, &[UNMADE], Breaks(6)),
    Call(2, 36, &[UNMADE], Breaks(6)),
    Call(2, 37, &[UNMADE], Breaks(6)),
    Call(2, 38, &[UNMADE], Breaks(6)),
    Call(2, 33, &[UNMADE], Returns(0, &[])),
    Call(2, 33, &[UNMADE], Returns(0, &[])),
    Call(0, 35, &[UNMADE], Returns(0, &[])),
    Call(2, 37, &[UNMADE], Returns(0, &[])),
    Call(2, 36, &[UNMADE], Breaks(6)),
    Call(2, 38, &[UNMADE], Breaks(6)),
    Call(2, 34, &[UNMADE], Returns(0, &[])),
    Call(2, 34, &[UNMADE], Breaks(6)),
    // A lock is a name: no memory need stand there.
    Call(0, 33, &[NOWHERE], Returns(0, &[])),
    Call(0, 35, &[NOWHERE], Returns(0, &[])),
];

#[test]
fn a_lock_is_made_acquired_and_freed(rt: HostRuntime) {
    assert!(rt; passes(rt.alloc(), &[(Handler::Initialize, LOCKS)]));
}

/// The caller holds its lock.
const HELD: &[Step] = &[
    Holding(2, 33, &[LOCK], Breaks(6)),
    Holding(2, 34, &[LOCK], Breaks(6)),
    Holding(2, 35, &[LOCK], Breaks(6)),
    Holding(2, 37, &[LOCK], Breaks(6)),
    Holding(2, 36, &[LOCK], Returns(0, &[])),
    Holding(2, 38, &[LOCK], Returns(0, &[])),
    Holding(0, 36, &[LOCK], Returns(0, &[])),
    Holding(2, 34, &[BUSY], Breaks(6)),
];

#[test]
fn a_lock_that_is_held_is_released_alone(rt: HostRuntime) {
    assert!(rt; passes(rt.alloc(), &[(Handler::Initialize, HELD)]));
}

/// Another context holds the lock.
const OF_ANOTHER: &[Step] = &[
    Call(0, 35, &[BUSY], Spins(1)),
    Call(2, 37, &[BUSY], Spins(1)),
    Call(2, 36, &[BUSY], Breaks(6)),
    Call(2, 38, &[BUSY], Breaks(6)),
    Call(2, 33, &[BUSY], Breaks(6)),
    Call(2, 34, &[BUSY], Breaks(6)),
];

#[test]
fn a_caller_spins_on_the_lock_of_another(rt: HostRuntime) {
    assert!(rt; passes(rt.alloc(), &[(Handler::Initialize, OF_ANOTHER)]));
}

/// Levels first, then the word, then the lock.
const ORDER: &[Step] = &[
    Call(3, 33, &[BUSY], Breaks(5)),
    Call(3, 34, &[UNMADE], Breaks(5)),
    Call(3, 35, &[UNMADE], Breaks(5)),
    Call(3, 36, &[UNMADE], Breaks(5)),
    Call(1, 37, &[UNMADE], Breaks(5)),
    Call(0, 37, &[UNMADE], Breaks(5)),
    Call(3, 37, &[UNMADE], Breaks(5)),
    Call(1, 38, &[UNMADE], Breaks(5)),
    Call(3, 38, &[UNMADE], Breaks(5)),
    Call(2, 35, &[], Breaks(9)),
    Call(2, 36, &[], Breaks(9)),
    Call(2, 37, &[], Breaks(9)),
];

#[test]
fn the_level_is_judged_before_the_lock(rt: HostRuntime) {
    assert!(rt; passes(rt.alloc(), &[(Handler::Initialize, ORDER)]));
}
