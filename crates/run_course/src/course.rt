//! The course of a run.

ghost use Rattle.std.specs.Prelude.{◌≡◌, ◌<◌, ◌+◌, ◌^◌, IfOk, length, replicate};
ghost use Rattle.legal_run.specs.State.{Inputs, State, silent, start};
ghost use Rattle.legal_run.specs.After.{spoke, awaited, done};
ghost use Rattle.run_course.specs.Shown.{Shows};

use crate::hearings::{Hearing, end, silent_drivers, speak, wait};
use call_log::Condition;
use nd_base::{Addr, BindingNo, Bytes, OutOfMemory};
use std::alloc::Global;
use std::marker::Model;

/// A packet: its bytes, and the send slot of its driver at which it was handed.
#[derive(Drop)]
pub struct Frame {
    pub bytes: Bytes,
    pub slot: Option<u16>,
}

impl Model for Frame {
    ghost use Rattle.legal_run.specs.State.{Frame as RunFrame};

    ghost Value = { RunFrame };

    ghost view = { λ f. record { bytes = f.bytes; slot = f.slot } };
}

/// What is kept of a run beside its contexts, its book and its world.
#[derive(Drop)]
pub struct Course {
    /// By a driver's number.
    pub drivers: Vec<Hearing>,
    /// By a packet's number.
    pub packets: Vec<Frame>,
    /// By a loan's number the descriptor that was lent.
    pub lent: Vec<u32>,
    /// How many frames have come.
    pub come: u64,
    /// How many timers and hang checks expired since something was done.
    pub expired: u64,
}

impl Course {
    /// Before the first entry of a run of so many drivers.
    ///
    /// # Errors
    /// [`OutOfMemory`] where no memory is left.
    pub fn new(alloc: Global, drivers: usize) -> Result<Course, OutOfMemory>
        ghost c: { Inputs }
        requires { drivers ≡ length c.drivers }
        ensures { IfOk result (Shows (start c)) }
    {
        let drivers = silent_drivers(alloc, drivers)?;
        Ok(Course {
            drivers,
            packets: Vec::new(alloc),
            lent: Vec::new(alloc),
            come: 0,
            expired: 0,
        })
    }

    /// A driver says something, or is told something.
    pub fn speak(&mut self, b: BindingNo)
        ghost s: { State }
        requires { Shows s self.old }
        ensures { Shows (spoke s b.0) self.new }
    {
        speak(&mut self.drivers, usize::from(b.0));
    }

    /// A driver awaits something.
    pub fn wait(&mut self, b: BindingNo, what: Condition)
        ghost s: { State }
        requires { Shows s self.old }
        ensures { Shows (awaited s b.0 what) self.new }
    {
        wait(&mut self.drivers, usize::from(b.0), what);
    }

    /// A driver is done.
    pub fn end(&mut self, b: BindingNo)
        ghost s: { State }
        requires { Shows s self.old }
        ensures { Shows (done s b.0) self.new }
    {
        end(&mut self.drivers, usize::from(b.0));
    }
}
