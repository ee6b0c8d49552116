//! The clock.

ghost use Rattle.std.specs.Prelude.{◌≡◌, ◌+◌, ◌<◌, ◌^◌, true, is_some, OnOk, OnErr, IfSome, IfNone};
ghost use Rattle.std.specs.FinMap as table;
ghost use Rattle.dpc_timer.specs.Turns.{AreTurnsOf};
ghost use Rattle.dpc_timer.specs.ClockState.{start, timer_at, armed_for, IsDue, IsFirstDue, NoneDue, IsNextMoment, NoneLater, is_queued, moved, Rise, Queue, Unqueue, Arm, Cancel, Fire};

use crate::timer::{Timer, Turn};
use crate::timer_queue::TimerQueue;
use nd_base::{AdapterNo, Addr, OutOfMemory};
use std::alloc::Global;
use std::collections::VecDeque;
use std::marker::Model;

/// How many numbers of adapters there are.
const ADAPTERS: usize = 256;

/// The virtual clock in microseconds, its armed timers, and the adapters whose handler is queued.
#[derive(Drop)]
pub struct Clock {
    time: u64,
    timers: TimerQueue,
    queued: [bool; ADAPTERS],
}

impl Model for Clock {
    ghost use Rattle.dpc_timer.specs.ClockState.{ClockState, state_code};

    ghost Value = { ClockState };

    ghost coded = { state_code };

    ghost view = { λ c. record { clock = c.time; timers = c.timers; queued = c.queued } };
}

impl Clock {
    /// A clock at 0, with no timer armed and no handler queued.
    #[tactic(auto, unfolding(crate::specs::ClockState::none_queued))]
    pub fn new(alloc: Global) -> Clock
        ensures { result ≡ start }
    {
        Clock {
            time: 0,
            timers: TimerQueue::new(alloc),
            queued: [false; ADAPTERS],
        }
    }

    /// The clock.
    pub fn now(&self) -> u64
        ensures { result ≡ self.now.clock }
    {
        self.time
    }

    /// Moves the clock on.
    pub fn rise(&mut self, by: u64)
        requires { self.old.clock + by < 2 ^ 64 }
        ensures { self.new ≡ moved self.old (Rise by) }
    {
        self.time += by;
    }

    /// Queues the handler of an adapter.
    pub fn queue_dpc(&mut self, a: AdapterNo)
        ensures moved { self.new ≡ moved self.old (Queue a) }
        ensures queued { is_queued self.new a ≡ true }
    {
        self.queued[usize::from(a.0)] = true;
    }

    /// Whether the handler of an adapter is queued.
    pub fn queued(&self, a: AdapterNo) -> bool
        ensures { result ≡ is_queued self.now a }
    {
        self.queued[usize::from(a.0)]
    }

    /// Takes the handler of an adapter, and answers whether it was queued.
    pub fn take_dpc(&mut self, a: AdapterNo) -> bool
        ensures moved { self.new ≡ moved self.old (Unqueue a) }
        ensures queued { result ≡ is_queued self.old a }
    {
        let place = usize::from(a.0);
        let queued = self.queued[place];
        self.queued[place] = false;
        queued
    }

    /// Arms a timer for a moment, and after each time that it is taken for a period later again,
    /// where the period is not 0.
    pub fn set_timer(&mut self, t: Addr, due: u64, every: u64) -> Result<(), OutOfMemory>
        ensures ok { OnOk result (self.new ≡ moved self.old (Arm t due every)) }
        ensures err { OnErr result (self.new ≡ self.old) }
    {
        let timer = Timer { moment: due, every };
        self.timers.arm(t, timer)
    }

    /// Takes a timer away, and answers whether it was armed.
    pub fn cancel(&mut self, t: Addr) -> bool
        ensures moved { self.new ≡ moved self.old (Cancel t) }
        ensures armed { result ≡ is_some (timer_at self.old t) }
    {
        self.timers.disarm(t)
    }

    /// The moment for which a timer is armed.
    pub fn armed(&self, t: Addr) -> Option<u64>
        ensures { result ≡ armed_for self.now t }
    {
        self.timers.get(t).map(|timer| timer.moment)
    }

    /// The earliest moment above the clock for which a timer is armed.
    pub fn next_due(&self) -> Option<u64>
        ensures next { IfSome result (IsNextMoment self.now) }
        ensures none { IfNone result (NoneLater self.now) }
    {
        self.timers.first_above(self.time)
    }

    /// The turns of the armed timers: each with its moment and the timer's address, in rising order.
    pub fn turns(&self) -> &VecDeque<Turn>
        ensures { AreTurnsOf (table.get self.now.timers) result.now.items }
    {
        self.timers.turns()
    }

    /// Takes a timer that is due.
    pub fn fire(&mut self, t: Addr)
        requires { IsDue self.old t }
        ensures { self.new ≡ moved self.old (Fire t) }
    {
        match self.timers.get(t) {
            Some(timer) => {
                if timer.every == 0 {
                    let _ = self.timers.disarm(t);
                } else {
                    let again = Timer {
                        moment: self.time.saturating_add(timer.every),
                        every: timer.every,
                    };
                    self.timers.arm_again(t, again);
                }
            }
            None => unreachable!(),
        }
    }

    /// The due timer of least moment, of equal moments the one of least address.
    fn first_due(&self) -> Option<Addr>
        ensures first { IfSome result (IsFirstDue self.now) }
        ensures due { IfSome result (IsDue self.now) }
        ensures none { IfNone result (NoneDue self.now) }
    {
        let turn = self.timers.first()?;
        if turn.moment <= self.time {
            Some(Addr(turn.address))
        } else {
            None
        }
    }

    /// Takes the due timer of least moment, of equal moments the one of least address.
    pub fn take_due(&mut self) -> Option<Addr>
        ensures first { IfSome result (IsFirstDue self.old) }
        ensures taken { IfSome result (λ t. self.new ≡ moved self.old (Fire t)) }
        ensures none { IfNone result (NoneDue self.old) }
        ensures unchanged { IfNone result (self.new ≡ self.old) }
    {
        let t = self.first_due()?;
        self.fire(t);
        Some(t)
    }
}
