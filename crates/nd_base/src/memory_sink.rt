//! A sink in memory, of which some calls are to fail.

ghost use Rattle.std.specs.Prelude.{◌≡◌, ◌++◌, ◌∷◌, [], ◌↔◌, Some, length, IfOk, OnOk, OnErr, IsErrOf};
ghost use Rattle.nd_base.specs.FaultPlan.{IsRefused};
ghost use Rattle.nd_base.specs.MemorySink.{after_line};

use crate::byte_string::Bytes;
use crate::fault::{IoFault, OutOfMemory};
use crate::fault_plan::{FaultPlan, raise};
use crate::line_sink::Sink;
use std::alloc::Global;
use std::marker::Model;

/// A sink in memory with a list of calls of `write` that are to fail, counted from 1. A call fails
/// too where the count of faults stands at its last value.
#[derive(Debug, Drop)]
pub struct MemSink {
    bytes: Bytes,
    plan: FaultPlan,
    faults: u64,
}

impl Model for MemSink {
    ghost use Rattle.nd_base.specs.MemorySink.{SinkState, sink_code};

    ghost Value = { SinkState };

    ghost coded = { sink_code };

    ghost view = { λ s. record { written = s.bytes; plan = s.plan; faults = s.faults } };
}

impl MemSink {
    /// Nothing was written, no call is to fail, and there was no fault.
    pub fn new(alloc: Global) -> MemSink
        ensures { result ≡ record { written = []; plan = record { calls = 0; failing = [] }; faults = 0 } }
    {
        MemSink {
            bytes: Bytes::new(alloc),
            plan: FaultPlan::new(alloc),
            faults: 0,
        }
    }

    /// The call of this number, from 1, is to fail.
    pub fn fail(&mut self, call: u64) -> Result<(), OutOfMemory>
        ensures ok { OnOk result (self.new ≡ record self.old { plan = record self.old.plan { failing = self.old.plan.failing ++ call ∷ [] } }) }
        ensures err { OnErr result (self.new ≡ self.old) }
    {
        self.plan.fail(call)
    }

    /// What was written.
    pub fn written(&self) -> &[u8]
        ensures { result.now ≡ self.now.written }
    {
        self.bytes.as_slice()
    }
}

impl Sink for MemSink {
    ghost written = { λ s. Some s.written };

    ghost faults = { λ s. s.faults };

    fn write(&mut self, piece: &[u8]) -> Result<usize, IoFault>
        ensures value { IfOk result (λ n. n ≡ length piece.now) }
        ensures ok { OnOk result (self.new.written ≡ self.old.written ++ piece.now) }
        ensures err { OnErr result (self.new.written ≡ self.old.written) }
        ensures failed { IsErrOf result IoFault.Failed ↔ IsRefused self.old.plan self.old.faults }
        ensures after { self.new ≡ after_line self.old result self.new.written }
    {
        if self.plan.next_fails() || self.faults == u64::MAX {
            raise(&mut self.faults);
            return Err(IoFault::Failed);
        }
        self.bytes.extend_from_slice(piece)?;
        Ok(piece.len())
    }
}
