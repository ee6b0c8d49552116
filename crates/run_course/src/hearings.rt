//! What each driver awaits. It ends with each command, quiet and notice of the driver.

ghost use Rattle.std.specs.Prelude.{◌≡◌, None, Some, IfOk, replicate, slice_set, slice_index_or};
ghost use Rattle.legal_run.specs.State.{silent};
ghost use Rattle.run_course.specs.Heard.{spoken, awaiting, ended, heard};

use call_log::Condition;
use nd_base::OutOfMemory;
use std::alloc::Global;
use std::marker::Model;

/// A driver, beside its row in the book.
#[derive(Drop)]
pub struct Hearing {
    /// What it awaits, where its last entry is an `await`.
    pub awaits: Option<Condition>,
    /// It is done, whatever follows.
    pub done: bool,
    /// How many frames it was told.
    pub frames: u64,
}

impl Model for Hearing {
    ghost use Rattle.legal_run.specs.State.{Hearing as RunHearing};

    ghost Value = { RunHearing };

    ghost view = { λ h. record { awaits = h.awaits; done = h.done; frames = h.frames } };
}

impl Hearing {
    /// A driver that has no entry yet.
    pub fn new() -> Hearing
        ensures { result ≡ silent }
    {
        Hearing {
            awaits: None,
            done: false,
            frames: 0,
        }
    }

    fn speak(&mut self)
        ensures { self.new ≡ spoken self.old }
    {
        self.awaits = None;
    }

    fn wait(&mut self, what: Condition)
        ensures { self.new ≡ awaiting what self.old }
    {
        self.awaits = Some(what);
    }

    fn end(&mut self)
        ensures { self.new ≡ ended self.old }
    {
        self.awaits = None;
        self.done = true;
    }
}

/// Drivers of which none has an entry yet.
pub(crate) fn silent_drivers(alloc: Global, count: usize) -> Result<Vec<Hearing>, OutOfMemory>
    ensures { IfOk result (λ drivers. drivers.items ≡ replicate count silent) }
{
    let mut drivers = Vec::new(alloc);
    for _ in 0..count {
        drivers.push(Hearing::new())?;
    }
    Ok(drivers)
}

/// A driver has said something, or was told something: it awaits nothing.
pub(crate) fn speak(drivers: &mut Vec<Hearing>, b: usize)
    ensures { drivers.new.items ≡ heard spoken drivers.old.items b }
{
    if b < drivers.len() {
        drivers[b].speak();
    }
}

/// A driver awaits something.
pub(crate) fn wait(drivers: &mut Vec<Hearing>, b: usize, what: Condition)
    ensures { drivers.new.items ≡ heard (awaiting what) drivers.old.items b }
{
    if b < drivers.len() {
        drivers[b].wait(what);
    }
}

/// A driver is done.
pub(crate) fn end(drivers: &mut Vec<Hearing>, b: usize)
    ensures { drivers.new.items ≡ heard ended drivers.old.items b }
{
    if b < drivers.len() {
        drivers[b].end();
    }
}
