//! The armed timers, by address and in the order of their turns.

ghost use Rattle.std.specs.Prelude.{◌≡◌, ◌≤◌, ◌<◌, ◌⊎◌, ℕ, None, IsSome, is_some, OnOk, OnErr, IfSome, IfNone};
ghost use Rattle.std.specs.FinMap as table;
ghost use Rattle.dpc_timer.specs.ClockState.{IsArmedFor};
ghost use Rattle.dpc_timer.specs.Turns.{AreTurnsOf};

use crate::timer::{Timer, Turn};
use crate::turns::{first_above, first_turn, put_turn, take_turn};
use nd_base::{Addr, OutOfMemory};
use std::alloc::Global;
use std::collections::{BTreeMap, VecDeque};
use std::marker::Model;

/// The armed timers. An address is kept as its number, and each timer has one turn. A turn that is
/// put where another was taken has room, so a timer is armed anew without memory.
#[derive(Drop)]
pub struct TimerQueue {
    timers: BTreeMap<u32, Timer>,
    turns: VecDeque<Turn>,
}

impl Model for TimerQueue {
    ghost use Rattle.dpc_timer.specs.ClockState.{Timers, timers_code};

    ghost Value = { Timers };

    ghost coded = { timers_code };

    ghost use Rattle.std.specs.Ordering.{nat_cmp};
    ghost use Rattle.std.specs.BTreeMap as tree;
    ghost use Rattle.dpc_timer.specs.Turns.{timers_in, AreTurnsOf};

    ghost view = { λ q. timers_in q.timers };

    ghost invariant = { λ q. AreTurnsOf (tree.get nat_cmp q.timers) q.turns.items };
}

impl TimerQueue {
    /// No timer is armed.
    pub fn new(alloc: Global) -> TimerQueue
        ensures { result ≡ table.empty }
    {
        TimerQueue {
            timers: BTreeMap::new(alloc),
            turns: VecDeque::new(alloc),
        }
    }

    /// The timer at an address, if it is armed.
    pub fn get(&self, t: Addr) -> Option<Timer>
        ensures { result ≡ table.get self.now t.0 }
    {
        self.timers.get(&t.0).copied()
    }

    /// Arms a timer, also one that is armed.
    pub fn arm(&mut self, t: Addr, timer: Timer) -> Result<(), OutOfMemory>
        ensures ok { OnOk result (self.new ≡ table.insert self.old t.0 timer) }
        ensures err { OnErr result (self.new ≡ self.old) }
    {
        if self.turns.reserve(1).is_err() {
            return Err(OutOfMemory);
        }
        match self.timers.insert(t.0, timer) {
            Ok(None) => {
                put_turn(&mut self.turns, turn_of(t, timer));
                Ok(())
            }
            Ok(Some(old)) => {
                take_turn(&mut self.turns, turn_of(t, old));
                put_turn(&mut self.turns, turn_of(t, timer));
                Ok(())
            }
            Err(_) => Err(OutOfMemory),
        }
    }

    /// Arms a timer anew that is armed, which takes no memory.
    pub fn arm_again(&mut self, t: Addr, timer: Timer)
        requires { IsSome (table.get self.old t.0) }
        ensures { self.new ≡ table.insert self.old t.0 timer }
    {
        match self.timers.insert(t.0, timer) {
            Ok(Some(old)) => {
                take_turn(&mut self.turns, turn_of(t, old));
                put_turn(&mut self.turns, turn_of(t, timer));
            }
            Ok(None) => unreachable!(),
            Err(_) => unreachable!(),
        }
    }

    /// Takes a timer away, and answers whether it was armed.
    pub fn disarm(&mut self, t: Addr) -> bool
        ensures taken { self.new ≡ table.remove self.old t.0 }
        ensures armed { result ≡ is_some (table.get self.old t.0) }
    {
        match self.timers.remove(&t.0) {
            Some(old) => {
                take_turn(&mut self.turns, turn_of(t, old));
                true
            }
            None => false,
        }
    }

    /// The first turn: that of least moment, of equal moments the one of least address.
    pub fn first(&self) -> Option<Turn>
        ensures found { IfSome result (λ turn. IsArmedFor self.now turn.address turn.moment) }
        ensures least { IfSome result (λ turn. (t moment : ℕ) → IsArmedFor self.now t moment → (turn.moment < moment) ⊎ ((turn.moment ≡ moment) × (turn.address ≤ t))) }
        ensures none { IfNone result ((t moment : ℕ) → IsArmedFor self.now t moment → ⊥) }
    {
        first_turn(&self.turns)
    }

    /// The turns of the armed timers.
    pub fn turns(&self) -> &VecDeque<Turn>
        ensures { AreTurnsOf (table.get self.now) result.now.items }
    {
        &self.turns
    }

    /// The earliest moment above this one for which a timer is armed.
    pub fn first_above(&self, now: u64) -> Option<u64>
        ensures found { IfSome result (λ moment. (now < moment) × (t : ℕ) × IsArmedFor self.now t moment) }
        ensures least { IfSome result (λ moment. (t later : ℕ) → IsArmedFor self.now t later → now < later → moment ≤ later) }
        ensures none { IfNone result ((t moment : ℕ) → IsArmedFor self.now t moment → moment ≤ now) }
    {
        first_above(&self.turns, now)
    }
}

/// The turn of a timer at its address.
fn turn_of(t: Addr, timer: Timer) -> Turn
    ensures { result ≡ record { moment = timer.moment; address = t.0 } }
{
    Turn {
        moment: timer.moment,
        address: t.0,
    }
}
