//! The timers that were initialized.

ghost use Rattle.std.specs.Prelude.{◌≡◌, OnOk, OnErr};
ghost use Rattle.std.specs.FinMap as table;
ghost use Rattle.guest_world.specs.Timers.{timers_in};

use crate::miniport::TimerFunction;
use nd_base::{Addr, OutOfMemory};
use std::alloc::Global;
use std::collections::BTreeMap;
use std::marker::Model;

/// What was given of each timer, by its address. An address is kept as its number.
#[derive(Drop)]
pub struct TimerFunctions {
    given: BTreeMap<u32, TimerFunction>,
}

impl Model for TimerFunctions {
    ghost use Rattle.guest_world.specs.Timers.{Timers, timers_code, timers_in};

    ghost Value = { Timers };

    ghost coded = { timers_code };

    ghost view = { λ t. timers_in t.given };
}

impl TimerFunctions {
    /// No timer was initialized.
    pub fn new(alloc: Global) -> TimerFunctions
        ensures { result ≡ table.empty }
    {
        TimerFunctions {
            given: BTreeMap::new(alloc),
        }
    }

    /// What was given of the timer at an address.
    pub fn get(&self, timer: Addr) -> Option<TimerFunction>
        ensures { result ≡ table.get self.now timer.0 }
    {
        self.given.get(&timer.0).copied()
    }

    /// What was given of each timer, by its address as a number.
    pub fn as_map(&self) -> &BTreeMap<u32, TimerFunction>
        ensures { timers_in result.now ≡ self.now }
    {
        &self.given
    }

    /// Gives a timer its function, also one that has one.
    pub fn set(&mut self, timer: Addr, function: TimerFunction) -> Result<(), OutOfMemory>
        ensures ok { OnOk result (self.new ≡ table.insert self.old timer.0 function) }
        ensures err { OnErr result (self.new ≡ self.old) }
    {
        match self.given.insert(timer.0, function) {
            Ok(_) => Ok(()),
            Err(_) => Err(OutOfMemory),
        }
    }
}
