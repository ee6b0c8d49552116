//! The locks that are there, by address.

ghost use Rattle.std.specs.Prelude.{◌≡◌, None, Some, IsSome, OnOk, OnErr, map};
ghost use Rattle.std.specs.List.{list_any};
ghost use Rattle.std.specs.Ordering.{nat_cmp};
ghost use Rattle.std.specs.BTreeMap as tree;
ghost use Rattle.std.specs.FinMap as table;
ghost use Rattle.irql_lock.specs.LockState.{is_held_by, holds_any, let_go, let_go_all};

use crate::states::Holding;
use nd_base::{Addr, CtxNo, OutOfMemory};
use std::alloc::Global;
use std::collections::BTreeMap;
use std::marker::Model;

/// Locks, each with its holding where it is held. An address is kept as its number.
#[derive(Drop)]
pub struct LockTable {
    locks: BTreeMap<u32, Option<Holding>>,
}

impl Model for LockTable {
    ghost use Rattle.irql_lock.specs.LockState.{Locks, locks_code};

    ghost Value = { Locks };

    ghost coded = { locks_code };

    ghost use Rattle.irql_lock.specs.LockTable.{locks_in};

    ghost view = { λ t. locks_in t.locks };
}

/// Whether a lock with this holding is held by the context.
fn is_held_by(held: &Option<Holding>, c: CtxNo) -> bool
    ensures { result ≡ is_held_by c held.now }
{
    match held {
        Some(holding) => holding.context.0 == c.0,
        None => false,
    }
}

/// Whether the context holds one of the locks.
fn has_lock_of(locks: &BTreeMap<u32, Option<Holding>>, c: CtxNo) -> bool
    ensures value { result ≡ list_any (is_held_by c) (tree.values locks.now) }
    ensures ordered { tree.IsOrdered nat_cmp locks.now }
{
    locks.values().any(|held| is_held_by(held, c))
}

/// Makes each of the locks free that the context holds.
fn let_go_locks(locks: &mut BTreeMap<u32, Option<Holding>>, c: CtxNo)
    ensures value { locks.new.entries ≡ map (λ e. (e.0, let_go c e.1)) locks.old.entries }
    ensures ordered { tree.IsOrdered nat_cmp locks.old }
{
    locks.retain(|_, held| {
        *held = let_go(*held, c);
        true
    });
}

/// The holding of a lock once the context has let it go.
fn let_go(held: Option<Holding>, c: CtxNo) -> Option<Holding>
    ensures { result ≡ let_go c held }
{
    if is_held_by(&held, c) { None } else { held }
}

impl LockTable {
    /// No locks.
    pub fn new(alloc: Global) -> LockTable
        ensures { result ≡ table.empty }
    {
        LockTable {
            locks: BTreeMap::new(alloc),
        }
    }

    /// What is at an address: a lock, which may be held.
    pub fn get(&self, lock: Addr) -> Option<Option<Holding>>
        ensures { result ≡ table.get self.now lock.0 }
    {
        self.locks.get(&lock.0).copied()
    }

    /// Adds a lock that is free, or makes the one that is there free.
    pub fn add(&mut self, lock: Addr) -> Result<(), OutOfMemory>
        ensures ok { OnOk result (self.new ≡ table.insert self.old lock.0 None) }
        ensures err { OnErr result (self.new ≡ self.old) }
    {
        match self.locks.insert(lock.0, None) {
            Ok(_) => Ok(()),
            Err(_) => Err(OutOfMemory),
        }
    }

    /// Sets the holding of a lock that is there, which takes no memory.
    pub fn put(&mut self, lock: Addr, held: Option<Holding>)
        requires { IsSome (table.get self.old lock.0) }
        ensures { self.new ≡ table.insert self.old lock.0 held }
    {
        match self.locks.insert(lock.0, held) {
            Ok(_) => {}
            Err(_) => unreachable!(),
        }
    }

    /// Takes a lock away.
    pub fn remove(&mut self, lock: Addr)
        ensures { self.new ≡ table.remove self.old lock.0 }
    {
        let _ = self.locks.remove(&lock.0);
    }

    /// Whether the context holds a lock.
    pub fn holds_any(&self, c: CtxNo) -> bool
        ensures { result ≡ holds_any self.now c }
    {
        has_lock_of(&self.locks, c)
    }

    /// Makes each lock free that the context holds.
    pub fn let_go_all(&mut self, c: CtxNo)
        ensures { self.new ≡ let_go_all self.old c }
    {
        let_go_locks(&mut self.locks, c);
    }
}
