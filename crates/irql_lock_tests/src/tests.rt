ghost use Rattle.std.specs.Prelude.{◌≡◌};
ghost use Rattle.irql_lock.specs.LockState.{nothing, IsOpen};

use irql_lock::{Levels, LockRefusal, Took};
use nd_base::{Addr, Breach, CtxNo};

/// The lock that most tests use.
const LOCK: Addr = Addr(0x8100_0040);

/// Opens contexts 0 and 1 at level 0, and makes the lock.
fn starts(levels: &mut Levels) -> bool
    requires { levels.old ≡ nothing }
    ensures first { IsOpen levels.new (record { 0 = 0 }) }
    ensures second { IsOpen levels.new (record { 0 = 1 }) }
{
    levels.begin(CtxNo(0), 0);
    levels.begin(CtxNo(1), 0);
    levels.make(LOCK).is_ok()
}

/// Whether context 0 gets the lock.
fn first_gets(levels: &mut Levels, dpr: bool) -> bool
    requires first { IsOpen levels.old (record { 0 = 0 }) }
    requires second { IsOpen levels.old (record { 0 = 1 }) }
    ensures first { IsOpen levels.new (record { 0 = 0 }) }
    ensures second { IsOpen levels.new (record { 0 = 1 }) }
{
    levels.acquire(CtxNo(0), LOCK, dpr) == Ok(Took::Got)
}

/// Whether context 0 is at this level.
fn first_is_at(levels: &Levels, level: u8) -> bool
    requires { IsOpen levels.now (record { 0 = 0 }) }
{
    levels.check(CtxNo(0), level, level).is_ok()
}

/// Whether nothing but its release can be done with a lock that context 0 holds.
fn held_lock_is_kept(levels: &mut Levels) -> bool
    requires first { IsOpen levels.old (record { 0 = 0 }) }
    requires second { IsOpen levels.old (record { 0 = 1 }) }
    ensures first { IsOpen levels.new (record { 0 = 0 }) }
    ensures second { IsOpen levels.new (record { 0 = 1 }) }
{
    levels.acquire(CtxNo(0), LOCK, false) == Err(Breach(6))
        && levels.release(CtxNo(1), LOCK, false) == Err(Breach(6))
        && levels.make(LOCK) == Err(LockRefusal::Broken(Breach(6)))
        && levels.free(LOCK) == Err(Breach(6))
        && levels.holder(LOCK) == Some(CtxNo(0))
}

/// Whether context 1 spins until context 0 releases the lock, and then gets it.
fn second_spins(levels: &mut Levels) -> bool
    requires first { IsOpen levels.old (record { 0 = 0 }) }
    requires second { IsOpen levels.old (record { 0 = 1 }) }
{
    levels.acquire(CtxNo(1), LOCK, true) == Ok(Took::Spin(CtxNo(0)))
        && levels.release(CtxNo(0), LOCK, false).is_ok()
        && levels.holder(LOCK) == None
        && levels.free(LOCK) == Err(Breach(6))
        && levels.acquire(CtxNo(1), LOCK, true) == Ok(Took::Got)
        && levels.holder(LOCK) == Some(CtxNo(1))
}

/// Whether a lock that context 1 releases can be freed once, and used no more.
fn freed_lock_is_gone(levels: &mut Levels) -> bool
    requires { IsOpen levels.old (record { 0 = 1 }) }
{
    levels.release(CtxNo(1), LOCK, true).is_ok()
        && levels.free(LOCK).is_ok()
        && levels.free(LOCK) == Err(Breach(6))
        && levels.acquire(CtxNo(1), LOCK, false) == Err(Breach(6))
        && levels.release(CtxNo(1), LOCK, false) == Err(Breach(6))
}

fn one_holder(levels: &mut Levels) -> bool
    requires { levels.old ≡ nothing }
{
    starts(levels) && first_gets(levels, false) && held_lock_is_kept(levels) && second_spins(levels)
}

#[test]
fn a_lock_has_one_holder(rt: HostRuntime) {
    let mut levels = Levels::new(rt.alloc());
    let kept = one_holder(&mut levels);
    assert!(rt; kept);
}

fn freed(levels: &mut Levels) -> bool
    requires { levels.old ≡ nothing }
{
    starts(levels)
        && levels.acquire(CtxNo(1), LOCK, true) == Ok(Took::Got)
        && freed_lock_is_gone(levels)
}

#[test]
fn a_freed_lock_is_gone(rt: HostRuntime) {
    let mut levels = Levels::new(rt.alloc());
    let gone = freed(&mut levels);
    assert!(rt; gone);
}

fn put_back(levels: &mut Levels) -> bool
    requires { levels.old ≡ nothing }
{
    starts(levels)
        && first_gets(levels, false)
        && first_is_at(levels, 2)
        && levels.raise(CtxNo(0), 5) == Ok(2)
        && levels.release(CtxNo(0), LOCK, false).is_ok()
        && first_is_at(levels, 0)
}

#[test]
fn a_release_puts_the_level_back(rt: HostRuntime) {
    let mut levels = Levels::new(rt.alloc());
    let back = put_back(&mut levels);
    assert!(rt; back);
}

fn left(levels: &mut Levels) -> bool
    requires { levels.old ≡ nothing }
{
    starts(levels)
        && levels.raise(CtxNo(0), 1) == Ok(0)
        && first_gets(levels, true)
        && first_is_at(levels, 1)
        && levels.raise(CtxNo(0), 2) == Ok(1)
        && levels.release(CtxNo(0), LOCK, true).is_ok()
        && first_is_at(levels, 2)
}

#[test]
fn the_forms_at_dpc_level_leave_the_level(rt: HostRuntime) {
    let mut levels = Levels::new(rt.alloc());
    let same = left(&mut levels);
    assert!(rt; same);
}

fn ranges(levels: &mut Levels) -> bool
    requires { levels.old ≡ nothing }
{
    starts(levels)
        && levels.raise(CtxNo(0), 26) == Ok(0)
        && levels.raise(CtxNo(0), 25) == Err(Breach(5))
        && levels.lower(CtxNo(0), 27) == Err(Breach(5))
        && levels.check(CtxNo(0), 0, 25) == Err(Breach(5))
        && levels.lower(CtxNo(0), 2).is_ok()
        && levels.check(CtxNo(0), 0, 2).is_ok()
        && levels.check(CtxNo(0), 3, 26) == Err(Breach(5))
}

#[test]
fn a_raise_goes_up_and_a_lower_down(rt: HostRuntime) {
    let mut levels = Levels::new(rt.alloc());
    let judged = ranges(&mut levels);
    assert!(rt; judged);
}

fn leaves_late(levels: &mut Levels) -> bool
    requires { levels.old ≡ nothing }
{
    starts(levels)
        && first_gets(levels, true)
        && levels.leave(CtxNo(0)) == Err(Breach(7))
        && levels.holder(LOCK) == Some(CtxNo(0))
}

#[test]
fn no_context_leaves_with_a_lock(rt: HostRuntime) {
    let mut levels = Levels::new(rt.alloc());
    let judged = leaves_late(&mut levels);
    assert!(rt; judged);
}

fn leaves_high(levels: &mut Levels) -> bool
    requires { levels.old ≡ nothing }
{
    starts(levels)
        && levels.raise(CtxNo(1), 2) == Ok(0)
        && levels.leave(CtxNo(1)) == Err(Breach(7))
        && levels.leave(CtxNo(0)).is_ok()
}

#[test]
fn no_context_leaves_at_another_level(rt: HostRuntime) {
    let mut levels = Levels::new(rt.alloc());
    let judged = leaves_high(&mut levels);
    assert!(rt; judged);
}

fn ends(levels: &mut Levels) -> bool
    requires { levels.old ≡ nothing }
{
    let held = starts(levels)
        && first_gets(levels, false)
        && levels.acquire(CtxNo(1), LOCK, false) == Ok(Took::Spin(CtxNo(0)));
    levels.end(CtxNo(200));
    levels.end(CtxNo(1));
    levels.end(CtxNo(0));
    held && levels.holder(LOCK) == None && levels.free(LOCK).is_ok()
}

#[test]
fn an_end_takes_holds_and_spins_away(rt: HostRuntime) {
    let mut levels = Levels::new(rt.alloc());
    let taken = ends(&mut levels);
    assert!(rt; taken);
}

/// Makes a thousand locks and lets context 0 acquire each.
fn takes_many(levels: &mut Levels) -> bool
    requires { IsOpen levels.old (record { 0 = 0 }) }
    ensures { IsOpen levels.new (record { 0 = 0 }) }
{
    for n in 0..1000u32 {
        let lock = Addr(0x8101_0000 + 64 * n);
        if levels.make(lock).is_err() || levels.acquire(CtxNo(0), lock, false).is_err() {
            return false;
        }
    }
    true
}

/// Releases a thousand locks, the last one first.
fn releases_many(levels: &mut Levels) -> bool
    requires { IsOpen levels.old (record { 0 = 0 }) }
    ensures { IsOpen levels.new (record { 0 = 0 }) }
{
    for n in (0..1000u32).rev() {
        if levels
            .release(CtxNo(0), Addr(0x8101_0000 + 64 * n), false)
            .is_err()
        {
            return false;
        }
    }
    true
}

fn thousand(levels: &mut Levels) -> bool
    requires { levels.old ≡ nothing }
{
    starts(levels)
        && takes_many(levels)
        && first_is_at(levels, 2)
        && releases_many(levels)
        && first_is_at(levels, 0)
        && levels.leave(CtxNo(0)).is_ok()
}

#[test]
fn a_thousand_locks_are_held_at_once(rt: HostRuntime) {
    let mut levels = Levels::new(rt.alloc());
    let held = thousand(&mut levels);
    assert!(rt; held);
}
