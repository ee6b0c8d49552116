//! What is kept of all contexts and adapters.

ghost use Rattle.std.specs.Prelude.{◌≡◌, IfOk, length, replicate};
ghost use Rattle.legal_run.specs.Guest.{entry_point};
ghost use Rattle.legal_run.specs.State.{Inputs, start, no_contexts, no_progress};
ghost use Rattle.miniport_state.specs.Seen.{AreLevels, Keeps};

use crate::contexts::Context;
use guest_world::ADAPTERS;
use nd_base::{Addr, OutOfMemory};
use std::alloc::Global;
use std::marker::Model;

/// How many contexts there are: they are numbered from 0.
pub const CONTEXTS: usize = 16;

/// How far DriverEntry has come.
#[derive(Clone, Copy, Debug, PartialEq, Eq)]
pub enum Entrance {
    Unentered,
    Inside,
    /// It has left, with this status.
    Gone(u32),
}

/// How far an adapter has come, beside what the book and the world keep of it.
#[derive(Drop)]
pub struct Progress {
    /// Its MiniportInitialize was entered.
    pub initialized: bool,
    /// Its MiniportEnableInterrupt is due.
    pub enables: bool,
    /// The moment of its next MiniportCheckForHang, in microseconds.
    pub check: u64,
}

impl Model for Progress {
    ghost use Rattle.legal_run.specs.State.{Progress as RunProgress};

    ghost Value = { RunProgress };

    ghost view = { λ p. record { initialized = p.initialized; enables = p.enables; check = p.check } };
}

/// The contexts, the adapters' progress, and the charges; and what the run was given of them.
#[derive(Drop)]
pub struct Adapters {
    /// The contexts, by number.
    pub contexts: [Context; CONTEXTS],
    /// When each context ran last, as a count of what ran before it.
    pub ran: [u64; CONTEXTS],
    /// How many times a context ran.
    pub runs: u64,
    pub entrance: Entrance,
    /// By an adapter's number.
    pub progress: Vec<Progress>,
    /// What DriverEntry was charged, in instructions and microseconds of calls.
    pub charged: u64,
    /// What each adapter was charged beside it.
    pub charges: Vec<u64>,
    /// The level of each adapter's interrupt line.
    pub lines: [u8; ADAPTERS],
    /// How many instructions and microseconds of calls an adapter may be charged.
    pub budget: u32,
    /// The address of DriverEntry.
    pub entry: Addr,
    /// The system shuts down in place of a halt.
    pub shuts_down: bool,
}

/// Sixteen contexts before their first `enter`.
#[tactic(auto, unfolding(legal_run::specs::State::no_contexts))]
fn no_contexts(alloc: Global) -> [Context; CONTEXTS]
    ensures { result ≡ no_contexts }
{
    [
        Context::new(alloc),
        Context::new(alloc),
        Context::new(alloc),
        Context::new(alloc),
        Context::new(alloc),
        Context::new(alloc),
        Context::new(alloc),
        Context::new(alloc),
        Context::new(alloc),
        Context::new(alloc),
        Context::new(alloc),
        Context::new(alloc),
        Context::new(alloc),
        Context::new(alloc),
        Context::new(alloc),
        Context::new(alloc),
    ]
}

/// So many adapters that have not come anywhere yet.
fn no_progress(alloc: Global, count: u8) -> Result<Vec<Progress>, OutOfMemory>
    ensures { IfOk result (λ progress. progress.items ≡ replicate count no_progress) }
{
    let mut progress = Vec::new(alloc);
    for _ in 0..count {
        progress.push(Progress {
            initialized: false,
            enables: false,
            check: 0,
        })?;
    }
    Ok(progress)
}

impl Adapters {
    /// Before the first entry of a run of so many adapters, whose interrupt lines have these levels.
    ///
    /// # Errors
    /// [`OutOfMemory`] where no memory is left.
    pub fn new(
        alloc: Global,
        count: u8,
        lines: [u8; ADAPTERS],
        budget: u32,
        entry: Addr,
        shuts_down: bool,
    ) -> Result<Adapters, OutOfMemory>
        ghost c: { Inputs }
        requires count { count ≡ length c.adapters }
        requires lines { AreLevels c lines }
        requires budget { budget ≡ c.budget }
        requires entry { entry.0 ≡ entry_point c.image }
        requires end { shuts_down ≡ c.shuts_down }
        ensures { IfOk result (Keeps c (start c)) }
    {
        let charges = vec![in alloc; 0; usize::from(count)]?;
        let progress = no_progress(alloc, count)?;
        Ok(Adapters {
            contexts: no_contexts(alloc),
            ran: [0; CONTEXTS],
            runs: 0,
            entrance: Entrance::Unentered,
            progress,
            charged: 0,
            charges,
            lines,
            budget,
            entry,
            shuts_down,
        })
    }
}
