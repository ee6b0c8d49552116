//! Drivers that return, that spend their budget, and that fault.

use crate::runs::{READABLE, UNREADABLE, put_driver, run};
use entry_session::Ending;
use nd_base::{Bytes, Status};
use pe_image::Image;
use std::alloc::Global;

/// The line that each log begins with.
const ENTER: &[u8] = b"enter - 0 driverentry e0000000,e0000008 -\n";

/// A driver of this code ends so, with so many instructions, and its log is put behind the text.
fn ends(
    alloc: Global,
    flags: u32,
    code: &[u8],
    budget: u32,
    log: &mut Bytes,
) -> Option<(Ending, u64)> {
    let mut file = Vec::new(alloc);
    put_driver(&mut file, flags, code).ok()?;
    let image = Image::read(alloc, &file).ok()?;
    run(alloc, &image, budget, log)
}

/// Whether the log is the line of the enter and then these lines.
fn has_lines(log: &Bytes, lines: &[u8]) -> bool {
    let text = log.as_slice();
    text.len() == ENTER.len() + lines.len() && text.starts_with(ENTER) && text.ends_with(lines)
}

/// A driver of this code faults behind so many instructions, with this log behind its enter.
fn faults(alloc: Global, flags: u32, code: &[u8], count: u64, lines: &[u8]) -> bool {
    let mut log = Bytes::new(alloc);
    ends(alloc, flags, code, 1000, &mut log) == Some((Ending::Faulting, count))
        && has_lines(&log, lines)
}

/// Five is moved into EAX, minus five added, and eight bytes returned.
#[test]
fn a_driver_returns(rt: HostRuntime) {
    let mut log = Bytes::new(rt.alloc());
    let code = [0xB8, 5, 0, 0, 0, 0x83, 0xC0, 0xFB, 0xC2, 8, 0];
    let ending = ends(rt.alloc(), READABLE, &code, 4, &mut log);
    let holds = ending == Some((Ending::Left(Status(0)), 3))
        && has_lines(&log, b"turn 0 3\nleave 0 00000000\n");
    assert!(rt; holds);
}

/// The budget is spent by the last instruction before the return's address is reached.
#[test]
fn a_driver_spends_its_budget_at_the_return(rt: HostRuntime) {
    let mut log = Bytes::new(rt.alloc());
    let code = [0xB8, 1, 0, 0, 0xC0, 0xC2, 8, 0];
    let spent = ends(rt.alloc(), READABLE, &code, 2, &mut log) == Some((Ending::Spent, 2))
        && has_lines(&log, b"turn 0 2\n");
    assert!(rt; spent);
}

/// A jump to itself.
#[test]
fn a_driver_spends_its_budget(rt: HostRuntime) {
    let mut log = Bytes::new(rt.alloc());
    let ending = ends(rt.alloc(), READABLE, &[0xEB, 0xFE], 1_000_000, &mut log);
    // 15,625 turns of 64
    let holds = ending == Some((Ending::Spent, 1_000_000))
        && log.len() == ENTER.len() + 15_625 * 10
        && log.as_slice().ends_with(b"turn 0 64\nturn 0 64\n");
    assert!(rt; holds);
}

#[test]
fn the_last_turn_is_cut_by_the_budget(rt: HostRuntime) {
    let mut log = Bytes::new(rt.alloc());
    let ending = ends(rt.alloc(), READABLE, &[0xEB, 0xFE], 130, &mut log);
    let holds = ending == Some((Ending::Spent, 130))
        && has_lines(&log, b"turn 0 64\nturn 0 64\nturn 0 2\n");
    assert!(rt; holds);
}

/// D9 C0 is FLD ST(0).
#[test]
fn a_driver_faults_outside(rt: HostRuntime) {
    let holds = faults(
        rt.alloc(),
        READABLE,
        &[0xD9, 0xC0],
        0,
        b"fault 0 outside 80101000\n",
    );
    assert!(rt; holds);
}

/// A jump to the last three bytes of the section, which begin a move.
#[test]
fn a_driver_faults_where_its_code_ends(rt: HostRuntime) {
    let code = [0xEB, 11, 0, 0, 0, 0, 0, 0, 0, 0, 0, 0, 0, 0xB8, 1, 2];
    let holds = faults(
        rt.alloc(),
        READABLE,
        &code,
        1,
        b"turn 0 1\nfault 0 unmapped 80101010\n",
    );
    assert!(rt; holds);
}

/// ESP is moved to the section itself, which may not be read, and the return reads there.
#[test]
fn a_driver_faults_unread(rt: HostRuntime) {
    let code = [0xBC, 0, 0x10, 0x10, 0x80, 0xC2, 8, 0];
    let holds = faults(
        rt.alloc(),
        UNREADABLE,
        &code,
        1,
        b"turn 0 1\nfault 0 notreadable 80101000\n",
    );
    assert!(rt; holds);
}

/// ESP is moved to a word that is the stack's first address, and the return goes there.
#[test]
fn a_driver_faults_in_its_stack(rt: HostRuntime) {
    let code = [0xBC, 8, 0x10, 0x10, 0x80, 0xC2, 8, 0, 0, 0, 0, 0x82];
    let holds = faults(
        rt.alloc(),
        READABLE,
        &code,
        2,
        b"turn 0 2\nfault 0 notexecutable 82000000\n",
    );
    assert!(rt; holds);
}

/// The same with the slot of NdisTerminateWrapper. The address to return to would stand behind the
/// section, so the call has no words, and breaks a rule.
#[test]
fn a_call_without_a_stack_breaks_a_rule(rt: HostRuntime) {
    let code = [0xBC, 8, 0x10, 0x10, 0x80, 0xC2, 8, 0, 0x10, 0, 0, 0xF0];
    let holds = faults(
        rt.alloc(),
        READABLE,
        &code,
        2,
        b"turn 0 2\ncall 0 NdisTerminateWrapper -\n",
    );
    assert!(rt; holds);
}

/// NdisMSleep for 1,000 microseconds: the clock goes on from 2 to 1,002.
#[test]
fn a_driver_sleeps(rt: HostRuntime) {
    let mut log = Bytes::new(rt.alloc());
    let code = [
        0x68, 0xE8, 3, 0, 0, 0xE8, 0x26, 0xF1, 0xEF, 0x6F, 0xB8, 0, 0, 0, 0, 0xC2, 8, 0,
    ];
    let lines = b"turn 0 2\ncall 0 NdisMSleep 000003e8\ntime 1002\nreply 0 00000000 -\n\
turn 0 2\nleave 0 00000000\n";
    let ending = ends(rt.alloc(), READABLE, &code, 1000, &mut log);
    let holds = ending == Some((Ending::Left(Status(0)), 5)) && has_lines(&log, lines);
    assert!(rt; holds);
}

/// A sleep of no time: the clock need not go on.
#[test]
fn a_driver_sleeps_no_time(rt: HostRuntime) {
    let mut log = Bytes::new(rt.alloc());
    let code = [
        0x68, 0, 0, 0, 0, 0xE8, 0x26, 0xF1, 0xEF, 0x6F, 0xB8, 0, 0, 0, 0, 0xC2, 8, 0,
    ];
    let lines = b"turn 0 2\ncall 0 NdisMSleep 00000000\nreply 0 00000000 -\n\
turn 0 2\nleave 0 00000000\n";
    let ending = ends(rt.alloc(), READABLE, &code, 1000, &mut log);
    let holds = ending == Some((Ending::Left(Status(0)), 5)) && has_lines(&log, lines);
    assert!(rt; holds);
}

/// A spin lock that its holder acquires again.
#[test]
fn a_call_breaks_a_rule(rt: HostRuntime) {
    let code = [
        0x68, 0, 0x10, 0x10, 0x80, 0xE8, 0xF6, 0xF1, 0xEF, 0x6F, 0x68, 0, 0x10, 0x10, 0x80, 0xE8,
        0x0C, 0xF2, 0xEF, 0x6F, 0x68, 0, 0x10, 0x10, 0x80, 0xE8, 0x02, 0xF2, 0xEF, 0x6F,
    ];
    let lines = b"turn 0 2\ncall 0 NdisAllocateSpinLock 80101000\nreply 0 00000000 -\n\
turn 0 2\ncall 0 NdisAcquireSpinLock 80101000\nreply 0 00000000 -\n\
turn 0 2\ncall 0 NdisAcquireSpinLock 80101000\n";
    assert!(rt; faults(rt.alloc(), READABLE, &code, 8, lines));
}

/// KfRaiseIrql, and a return at the raised level.
#[test]
fn a_return_breaks_a_rule(rt: HostRuntime) {
    let code = [
        0xB9, 2, 0, 0, 0, 0xE8, 0x26, 0xF0, 0xEF, 0x6F, 0xC2, 8, 0, 0, 0, 0, 0,
    ];
    let lines = b"turn 0 2\ncall 0 KfRaiseIrql 00000002\nreply 0 00000000 -\n\
turn 0 1\nleave 0 00000000\n";
    assert!(rt; faults(rt.alloc(), READABLE, &code, 4, lines));
}

/// A stall for 1,000 microseconds spends a budget of 100.
#[test]
fn a_call_spends_the_budget(rt: HostRuntime) {
    let mut log = Bytes::new(rt.alloc());
    let code = [
        0x68, 0xE8, 3, 0, 0, 0xE8, 0xB6, 0xF3, 0xEF, 0x6F, 0xB8, 0, 0, 0, 0, 0xC2, 8, 0,
    ];
    let lines = b"turn 0 2\ncall 0 KeStallExecutionProcessor 000003e8\nreply 0 00000000 -\n";
    let ending = ends(rt.alloc(), READABLE, &code, 100, &mut log);
    let holds = ending == Some((Ending::Spent, 1003)) && has_lines(&log, lines);
    assert!(rt; holds);
}
