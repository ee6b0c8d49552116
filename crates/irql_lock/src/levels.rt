//! Levels and locks of all contexts.

ghost use Rattle.std.specs.Prelude.{◌≡◌, ◌≢◌, ◌<◌, ℕ, None, Some, IsSome, Ok, IfOk, is_ok, slice_index_or, slice_set};
ghost use Rattle.std.specs.List.{list_any};
ghost use Rattle.nd_base.specs.declared.numbers.CtxNo.{CtxNo};
ghost use Rattle.irql_lock.specs.LockState.{contexts, nothing, context_of, IsOpen, level_of, holder_of, is_busy, spins_in};
ghost use Rattle.irql_lock.specs.LockMoves.{moved, Moves, Makes, Begin, Leave, End, Raise, Lower, Acquire, Release, Make, Free, took, in_range, raised_for_lock};

use crate::answers::{LockRefusal, Took};
use crate::lock_table::LockTable;
use crate::states::{Context, Holding};
use nd_base::{Addr, Breach, CtxNo};
use std::alloc::Global;
use std::marker::Model;

/// How many contexts there are: they are numbered from 0.
const CONTEXTS: usize = 16;

/// The level that the holder of a spin lock is at, DISPATCH_LEVEL of the DDK.
const DISPATCH_LEVEL: u8 = 2;

/// A call at a level outside its range, a raise that goes down, a lower that goes up.
const LEVEL_RULE: Breach = Breach(5);

/// A lock that is acquired by its holder, released by a context that does not hold it, made or
/// freed while it is held or spun on, or used while it is not there.
const LOCK_RULE: Breach = Breach(6);

/// A handler that leaves with a lock held or at another level than it began at.
const LEAVE_RULE: Breach = Breach(7);

/// The levels of the open contexts, and the locks. Where a call answers a `Breach`, nothing has
/// changed.
#[derive(Drop)]
pub struct Levels {
    contexts: [Option<Context>; CONTEXTS],
    locks: LockTable,
}

impl Model for Levels {
    ghost use Rattle.irql_lock.specs.LockState.{LockState, state_code};

    ghost Value = { LockState };

    ghost coded = { state_code };

    ghost view = { λ s. record { contexts = s.contexts; locks = s.locks } };
}

/// The context of this number, which is open.
fn open_context(contexts: &[Option<Context>], c: CtxNo) -> Context
    requires { IsSome (slice_index_or contexts.now c.0 None) }
    ensures { slice_index_or contexts.now c.0 None ≡ Some result }
{
    match contexts.get(usize::from(c.0)) {
        Some(Some(context)) => *context,
        _ => unreachable!(),
    }
}

/// Sets the context of this number, if there is one.
fn set_context(contexts: &mut [Option<Context>], c: CtxNo, context: Option<Context>)
    ensures set { contexts.new ≡ slice_set contexts.old c.0 context }
    ensures open { IsSome context → IsSome (slice_index_or contexts.old c.0 None) → IsSome (slice_index_or contexts.new c.0 None) }
    ensures others { (d : ℕ) → d ≢ c.0 → slice_index_or contexts.new d None ≡ slice_index_or contexts.old d None }
{
    let place = usize::from(c.0);
    if place < contexts.len() {
        contexts[place] = context;
    }
}

/// Whether the context is open and spins on the lock.
fn spins_on(context: &Option<Context>, lock: Addr) -> bool
    ensures { result ≡ spins_in lock context.now }
{
    match context {
        Some(context) => match context.spins {
            Some(spun) => spun.0 == lock.0,
            None => false,
        },
        None => false,
    }
}

/// Whether one of the contexts spins on the lock.
fn is_spun(contexts: &[Option<Context>], lock: Addr) -> bool
    ensures { result ≡ list_any (spins_in lock) contexts.now }
{
    contexts.iter().any(|context| spins_on(context, lock))
}

impl Levels {
    /// No context is open, and no lock is there.
    pub fn new(alloc: Global) -> Levels
        ensures { result ≡ nothing }
    {
        Levels {
            contexts: [None; CONTEXTS],
            locks: LockTable::new(alloc),
        }
    }

    /// Opens a context at a level.
    pub fn begin(&mut self, c: CtxNo, level: u8)
        requires number { c.0 < contexts }
        requires closed { context_of self.old c ≡ None }
        ensures moved { moved self.old (Begin c level) ≡ Ok self.new }
        ensures open { IsOpen self.new c }
        ensures others { (d : CtxNo) → d.0 ≢ c.0 → context_of self.new d ≡ context_of self.old d }
    {
        let context = Context {
            began: level,
            level,
            spins: None,
        };
        self.contexts[usize::from(c.0)] = Some(context);
    }

    /// Whether the handler of a context may leave: it is at the level that it began at, and holds no
    /// lock.
    pub fn may_leave(&self, c: CtxNo) -> bool
        requires { IsOpen self.now c }
        ensures { result ≡ is_ok (moved self.now (Leave c)) }
    {
        let context = open_context(&self.contexts, c);
        context.level == context.began && !self.locks.holds_any(c)
    }

    /// Closes a context whose handler leaves.
    pub fn leave(&mut self, c: CtxNo) -> Result<(), Breach>
        requires { IsOpen self.old c }
        ensures moved { Moves self.old (Leave c) result self.new }
        ensures others { (d : CtxNo) → d.0 ≢ c.0 → context_of self.new d ≡ context_of self.old d }
    {
        if !self.may_leave(c) {
            return Err(LEAVE_RULE);
        }
        set_context(&mut self.contexts, c, None);
        Ok(())
    }

    /// Closes a context that is stopped, and takes its holds and its spin away. Where it is not
    /// open, nothing changes.
    pub fn end(&mut self, c: CtxNo)
        ensures moved { moved self.old (End c) ≡ Ok self.new }
        ensures others { (d : CtxNo) → d.0 ≢ c.0 → context_of self.new d ≡ context_of self.old d }
    {
        if let Some(Some(_)) = self.contexts.get(usize::from(c.0)) {
            set_context(&mut self.contexts, c, None);
            self.locks.let_go_all(c);
        }
    }

    /// Raises a context's level, and answers the old one.
    pub fn raise(&mut self, c: CtxNo, to: u8) -> Result<u8, Breach>
        requires { IsOpen self.old c }
        ensures moved { Moves self.old (Raise c to) result self.new }
        ensures old { IfOk result (λ old. old ≡ level_of self.old c) }
        ensures open { IsOpen self.new c }
        ensures others { (d : CtxNo) → d.0 ≢ c.0 → context_of self.new d ≡ context_of self.old d }
    {
        let context = open_context(&self.contexts, c);
        if to < context.level {
            return Err(LEVEL_RULE);
        }
        let raised = Context {
            level: to,
            ..context
        };
        set_context(&mut self.contexts, c, Some(raised));
        Ok(context.level)
    }

    /// Lowers a context's level.
    pub fn lower(&mut self, c: CtxNo, to: u8) -> Result<(), Breach>
        requires { IsOpen self.old c }
        ensures moved { Moves self.old (Lower c to) result self.new }
        ensures open { IsOpen self.new c }
        ensures others { (d : CtxNo) → d.0 ≢ c.0 → context_of self.new d ≡ context_of self.old d }
    {
        let context = open_context(&self.contexts, c);
        if context.level < to {
            return Err(LEVEL_RULE);
        }
        let lowered = Context {
            level: to,
            ..context
        };
        set_context(&mut self.contexts, c, Some(lowered));
        Ok(())
    }

    /// Whether a context's level is in a range, both ends included.
    pub fn check(&self, c: CtxNo, low: u8, high: u8) -> Result<(), Breach>
        requires { IsOpen self.now c }
        ensures { result ≡ in_range (level_of self.now c) low high }
    {
        let level = open_context(&self.contexts, c).level;
        if low <= level && level <= high {
            Ok(())
        } else {
            Err(LEVEL_RULE)
        }
    }

    /// Takes a lock for a context, or lets it spin where another holds the lock. The form for code
    /// at DPC level leaves the level, the other raises it to 2.
    pub fn acquire(&mut self, c: CtxNo, lock: Addr, dpr: bool) -> Result<Took, Breach>
        requires { IsOpen self.old c }
        ensures moved { Moves self.old (Acquire c lock dpr) result self.new }
        ensures took { IfOk result (λ answer. answer ≡ took (holder_of self.old lock)) }
        ensures open { IsOpen self.new c }
        ensures others { (d : CtxNo) → d.0 ≢ c.0 → context_of self.new d ≡ context_of self.old d }
    {
        let context = open_context(&self.contexts, c);
        match self.locks.get(lock) {
            None => Err(LOCK_RULE),
            Some(None) => {
                let taken = Context {
                    level: level_with_lock(context.level, dpr),
                    spins: None,
                    ..context
                };
                set_context(&mut self.contexts, c, Some(taken));
                let holding = Holding {
                    context: c,
                    before: context.level,
                };
                self.locks.put(lock, Some(holding));
                Ok(Took::Got)
            }
            Some(Some(holding)) => {
                if holding.context.0 == c.0 {
                    return Err(LOCK_RULE);
                }
                let spinning = Context {
                    spins: Some(lock),
                    ..context
                };
                set_context(&mut self.contexts, c, Some(spinning));
                Ok(Took::Spin(holding.context))
            }
        }
    }

    /// Makes a lock free that the context holds. The form for code at DPC level leaves the level,
    /// the other puts back the one that the context was at before it acquired the lock.
    pub fn release(&mut self, c: CtxNo, lock: Addr, dpr: bool) -> Result<(), Breach>
        requires { IsOpen self.old c }
        ensures moved { Moves self.old (Release c lock dpr) result self.new }
        ensures open { IsOpen self.new c }
        ensures others { (d : CtxNo) → d.0 ≢ c.0 → context_of self.new d ≡ context_of self.old d }
    {
        let context = open_context(&self.contexts, c);
        let Some(Some(holding)) = self.locks.get(lock) else {
            return Err(LOCK_RULE);
        };
        if holding.context.0 != c.0 {
            return Err(LOCK_RULE);
        }
        let level = if dpr { context.level } else { holding.before };
        set_context(&mut self.contexts, c, Some(Context { level, ..context }));
        self.locks.put(lock, None);
        Ok(())
    }

    /// Whether a context holds the lock or spins on it.
    fn is_busy(&self, lock: Addr) -> bool
        ensures { result ≡ is_busy self.now lock }
    {
        self.holder(lock).is_some() || is_spun(&self.contexts, lock)
    }

    /// Makes a lock that is free.
    pub fn make(&mut self, lock: Addr) -> Result<(), LockRefusal>
        ensures moved { Makes self.old (Make lock) result self.new }
        ensures contexts { self.new.contexts ≡ self.old.contexts }
    {
        if self.is_busy(lock) {
            return Err(LockRefusal::Broken(LOCK_RULE));
        }
        match self.locks.add(lock) {
            Ok(()) => Ok(()),
            Err(_) => Err(LockRefusal::OutOfMemory),
        }
    }

    /// Takes a lock away.
    pub fn free(&mut self, lock: Addr) -> Result<(), Breach>
        ensures moved { Moves self.old (Free lock) result self.new }
        ensures contexts { self.new.contexts ≡ self.old.contexts }
    {
        if self.locks.get(lock).is_none() || self.is_busy(lock) {
            return Err(LOCK_RULE);
        }
        self.locks.remove(lock);
        Ok(())
    }

    /// The context that holds the lock, if one does.
    pub fn holder(&self, lock: Addr) -> Option<CtxNo>
        ensures { result ≡ holder_of self.now lock }
    {
        match self.locks.get(lock) {
            Some(Some(holding)) => Some(holding.context),
            _ => None,
        }
    }
}

/// The level of a context at this level that takes a lock.
fn level_with_lock(level: u8, dpr: bool) -> u8
    ensures { result ≡ raised_for_lock dpr level }
{
    if dpr {
        level
    } else {
        level.max(DISPATCH_LEVEL)
    }
}
