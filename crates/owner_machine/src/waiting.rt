//! What waits for a handler of an adapter.

ghost use Rattle.std.specs.Prelude.{◌≡◌, List, ℕ, [], ◌∷◌, ◌++◌, drop, length, OnOk, OnErr, IsTrue, ◌↔◌, slice_get, option_copied};
ghost use Rattle.owner_machine.specs.declared.waiting.Event.{Event};

use nd_base::{Bytes, OutOfMemory};
use std::alloc::Global;
use std::collections::VecDeque;
use std::marker::Model;

/// An event that a protocol driver signals, with its bytes.
#[derive(Drop)]
pub struct Event {
    pub number: u32,
    pub bytes: Bytes,
}

/// Cancel ids, the first that waits in front.
#[derive(Drop)]
pub struct CancelIds {
    ids: VecDeque<u32>,
}

impl Model for CancelIds {
    ghost Value = { List ℕ };

    ghost view = { λ w. w.ids.items };
}

impl CancelIds {
    /// No ids.
    pub fn new(alloc: Global) -> CancelIds
        ensures { result ≡ [] }
    {
        CancelIds {
            ids: VecDeque::new(alloc),
        }
    }

    /// Whether no id waits.
    pub fn is_empty(&self) -> bool
        ensures { IsTrue result ↔ (self.now ≡ []) }
    {
        self.ids.is_empty()
    }

    /// The first that waits.
    pub fn first(&self) -> Option<u32>
        ensures { result ≡ slice_get self.now 0 }
    {
        self.ids.front().copied()
    }

    /// Puts an id behind the last one.
    pub fn push(&mut self, id: u32) -> Result<(), OutOfMemory>
        ensures ok { OnOk result (self.new ≡ self.old ++ id ∷ []) }
        ensures err { OnErr result (self.new ≡ self.old) }
    {
        self.ids.push_back(id)?;
        Ok(())
    }

    /// Takes the first away, if there is one.
    pub fn pop(&mut self)
        ensures { self.new ≡ drop 1 self.old }
    {
        let _taken = self.ids.pop_front();
    }

    /// Takes all away.
    pub fn clear(&mut self)
        ensures { self.new ≡ [] }
    {
        self.ids.clear();
    }
}

/// Events, the first that waits in front.
#[derive(Drop)]
pub struct Events {
    events: VecDeque<Event>,
}

impl Model for Events {
    ghost Value = { List Event };

    ghost view = { λ w. w.events.items };
}

impl Events {
    /// No events.
    pub fn new(alloc: Global) -> Events
        ensures { result ≡ [] }
    {
        Events {
            events: VecDeque::new(alloc),
        }
    }

    /// Whether no event waits.
    pub fn is_empty(&self) -> bool
        ensures { IsTrue result ↔ (self.now ≡ []) }
    {
        self.events.is_empty()
    }

    /// The first that waits.
    pub fn first(&self) -> Option<&Event>
        ensures { option_copied result ≡ slice_get self.now 0 }
    {
        self.events.front()
    }

    /// Puts an event behind the last one.
    pub fn push(&mut self, event: Event) -> Result<(), OutOfMemory>
        ensures ok { OnOk result (self.new ≡ self.old ++ event ∷ []) }
        ensures err { OnErr result (self.new ≡ self.old) }
    {
        self.events.push_back(event)?;
        Ok(())
    }

    /// Takes the first away, if there is one.
    pub fn pop(&mut self)
        ensures { self.new ≡ drop 1 self.old }
    {
        let _taken = self.events.pop_front();
    }

    /// Takes all away.
    pub fn clear(&mut self)
        ensures { self.new ≡ [] }
    {
        self.events.clear();
    }
}
