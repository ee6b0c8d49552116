//! Spin locks. A lock is named by its address.

ghost use Rattle.std.specs.Prelude.{◌≤◌, length};
ghost use Rattle.guest_world.specs.Worlds.{CanAnswer};
ghost use Rattle.import_answers.specs.Levels.{allocate_lock, free_lock, acquire, release};
ghost use Rattle.import_answers.specs.Outcomes.{Comes};

use call_replies::done;
use guest_world::{Answer, CallRefusal, Caller, World};
use irql_lock::{LockRefusal, Took};
use nd_base::Addr;
use std::alloc::Global;

/// NdisAllocateSpinLock, import 33: makes a lock that is free.
pub fn allocate_lock(alloc: Global, world: &mut World, words: &[u32]) -> Result<Answer, CallRefusal>
    requires { 1 ≤ length words.now }
    ensures { Comes (allocate_lock world.old words.now) world.old result world.new }
{
    match world.levels.make(Addr(words[0])) {
        Ok(()) => Ok(done(alloc)),
        Err(LockRefusal::OutOfMemory) => Err(CallRefusal::OutOfMemory),
        Err(LockRefusal::Broken(broken)) => Err(CallRefusal::Broken(broken)),
    }
}

/// NdisFreeSpinLock, import 34: takes a lock away.
pub fn free_lock(alloc: Global, world: &mut World, words: &[u32]) -> Result<Answer, CallRefusal>
    requires { 1 ≤ length words.now }
    ensures { Comes (free_lock world.old words.now) world.old result world.new }
{
    match world.levels.free(Addr(words[0])) {
        Ok(()) => Ok(done(alloc)),
        Err(broken) => Err(CallRefusal::Broken(broken)),
    }
}

/// NdisAcquireSpinLock, import 35, and at DPC level NdisDprAcquireSpinLock, import 37: takes a lock
/// for the caller, or lets it spin where another context holds the lock.
pub fn acquire(
    alloc: Global,
    world: &mut World,
    caller: Caller,
    words: &[u32],
    dpr: bool,
) -> Result<Answer, CallRefusal>
    requires can { CanAnswer world.old caller }
    requires words { 1 ≤ length words.now }
    ensures { Comes (acquire world.old caller words.now dpr) world.old result world.new }
{
    match world.levels.acquire(caller.context, Addr(words[0]), dpr) {
        Ok(Took::Got) => Ok(done(alloc)),
        Ok(Took::Spin(holder)) => Ok(Answer::Spin(holder)),
        Err(broken) => Err(CallRefusal::Broken(broken)),
    }
}

/// NdisReleaseSpinLock, import 36, and at DPC level NdisDprReleaseSpinLock, import 38: makes a lock
/// free that the caller holds.
pub fn release(
    alloc: Global,
    world: &mut World,
    caller: Caller,
    words: &[u32],
    dpr: bool,
) -> Result<Answer, CallRefusal>
    requires can { CanAnswer world.old caller }
    requires words { 1 ≤ length words.now }
    ensures { Comes (release world.old caller words.now dpr) world.old result world.new }
{
    match world.levels.release(caller.context, Addr(words[0]), dpr) {
        Ok(()) => Ok(done(alloc)),
        Err(broken) => Err(CallRefusal::Broken(broken)),
    }
}
