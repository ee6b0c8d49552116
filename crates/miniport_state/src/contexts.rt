//! Contexts: their registers, what their handlers were entered for, and their open calls.

ghost use Rattle.std.specs.Prelude.{◌≡◌};
ghost use Rattle.std.specs.Option.{option_map};
ghost use Rattle.legal_run.specs.State.{no_context};
ghost use Rattle.miniport_state.specs.Views.{wait_of};

use ia32_step::Regs;
use log_fields::{Words, Writes};
use nd_base::Addr;
use std::alloc::Global;
use std::marker::Model;

/// How far the function has come that a call of NdisMSynchronizeWithInterrupt waits for.
#[derive(Clone, Copy, Debug, PartialEq, Eq)]
pub enum Stage {
    Needed,
    Entered,
    /// It has left, with this EAX.
    Left(u32),
}

/// What an open call waits for.
#[derive(Clone, Copy, Debug, PartialEq, Eq)]
pub enum Wait {
    Nothing,
    /// The spin lock at this address.
    OnLock(Addr),
    /// This moment of the clock, in microseconds.
    OnClock(u64),
    OnSync(Stage),
}

/// An open call: its import, its argument words, what it waits for, and what its reply writes beside
/// what the import's row says.
#[derive(Drop)]
pub struct Calling {
    pub import: u8,
    pub words: Words,
    pub wait: Wait,
    pub writes: Writes,
}

impl Model for Calling {
    ghost use Rattle.legal_run.specs.State.{Calling as OpenCall};
    ghost use Rattle.miniport_state.specs.Views.{wait_of};

    ghost Value = { OpenCall };

    ghost view = { λ call. record { import = call.import; words = call.words; wait = wait_of call.wait; writes = call.writes } };
}

/// A context, beside its open handler, which the book of owners keeps. It is all of its last `enter`.
#[derive(Drop)]
pub struct Context {
    pub registers: Regs,
    /// What its handler was entered for: packets or a request, or the context that called for it.
    pub subject: Vec<u64>,
    pub call: Option<Calling>,
}

impl Model for Context {
    ghost use Rattle.legal_run.specs.State.{Context as RunContext};

    ghost Value = { RunContext };

    ghost view = { λ x. record { registers = x.registers; subject = x.subject.items; call = x.call } };
}

impl Context {
    /// A context before its first `enter`.
    pub fn new(alloc: Global) -> Context
        ensures { result ≡ no_context }
    {
        Context {
            registers: Regs::new(),
            subject: Vec::new(alloc),
            call: None,
        }
    }

    /// What its open call waits for, if one is open.
    pub fn wait(&self) -> Option<Wait>
        ensures { option_map wait_of result ≡ option_map (λ call. call.wait) self.now.call }
    {
        match &self.call {
            Some(call) => Some(call.wait),
            None => None,
        }
    }
}
