//! What a call of an import answers.

ghost use Rattle.std.specs.Prelude.{◌≡◌, [], ◌∷◌, ◌++◌, List, ℕ, length, OnOk, OnErr};

use log_fields::{Handler, Writes};
use nd_base::{AdapterNo, Breach, Bytes, CtxNo, OutOfMemory};
use std::alloc::Global;
use std::marker::Model;

/// Whose call it is: a context, its adapter (DriverEntry has none), and its open handler.
#[derive(Clone, Copy, PartialEq, Eq)]
pub struct Caller {
    pub context: CtxNo,
    pub adapter: Option<AdapterNo>,
    pub handler: Handler,
}

/// A list of frames that a card sent, in order.
#[derive(Drop)]
pub struct SentFrames {
    items: Vec<Bytes>,
}

impl Model for SentFrames {
    ghost use Rattle.std.specs.Prelude.{List, ℕ};

    ghost Value = { List (List ℕ) };

    ghost view = { λ f. f.items.items };
}

impl SentFrames {
    /// No frames.
    pub fn new(alloc: Global) -> SentFrames
        ensures { result ≡ [] }
    {
        SentFrames {
            items: Vec::new(alloc),
        }
    }

    /// Puts a frame behind the last one.
    pub fn push(&mut self, frame: Bytes) -> Result<(), OutOfMemory>
        ensures ok { OnOk result (self.new ≡ self.old ++ frame ∷ []) }
        ensures err { OnErr result (self.new ≡ self.old) }
    {
        self.items.push(frame)?;
        Ok(())
    }

    /// How many frames there are.
    pub fn len(&self) -> usize
        ensures { result ≡ length self.now }
    {
        self.items.len()
    }

    /// The frames.
    pub fn as_slice(&self) -> &[Bytes]
        ensures { result.now ≡ self.now }
    {
        self.items.as_slice()
    }
}

/// What a call gets that is answered.
#[derive(Drop)]
pub struct Reply {
    /// What EAX holds behind it.
    pub eax: u32,
    /// What is written to guest memory, in order.
    pub writes: Writes,
    /// What the call costs, in microseconds.
    pub cost: u64,
    /// The frames that its accesses to a card sent, in order.
    pub sent: SentFrames,
}

/// What becomes of a call that breaks no rule.
#[derive(Drop)]
pub enum Answer {
    /// It is answered at once.
    Now(Reply),
    /// It spins on a lock that this other context holds.
    Spin(CtxNo),
    /// It sleeps up to this moment, in microseconds.
    Sleep(u64),
    /// It waits for the function that it names, which runs as the adapter's interrupt handler.
    Sync,
}

/// Why a call is not answered. It changes nothing then.
#[derive(Clone, Copy, Debug, PartialEq, Eq)]
pub enum CallRefusal {
    OutOfMemory,
    /// The rule that it breaks.
    Broken(Breach),
}
