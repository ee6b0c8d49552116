//! Logs.

ghost use Rattle.std.specs.Prelude.{◌≡◌, ◌<◌, ◌-◌, [], ◌∷◌, ◌++◌, length, max, slice_get, option_copied, IfSome, OnOk, OnErr, IsTrue, ◌↔◌};
ghost use Rattle.call_log.specs.Lines.{InRange};
ghost use Rattle.call_log.specs.Logs.{State, LineGives, LogGives, ReadsBack, OneEntryALine, KindsAreFound, NoTextHoldsLf, HeldEntriesFit};

use crate::entry::Entry;
use crate::lines::entry;
use crate::refusal::LogRefusal;
use log_fields::LineRefusal;
use log_fields::scalars::past;
use nd_base::OutOfMemory;
use std::alloc::Global;
use std::marker::Model;

/// The entries of a run, in order, and a spare: how many more can be appended without memory.
#[derive(Drop)]
pub struct Log {
    entries: Vec<Entry>,
    spare: u64,
}

impl Model for Log {
    ghost use Rattle.std.specs.Prelude.{◌≤◌, ◌+◌};
    ghost use Rattle.std.specs.Vec.{vec_len, vec_capacity};
    ghost use Rattle.call_log.specs.Logs.{State, AllInRange};

    ghost Value = { State };

    ghost view = { λ l. record { entries = l.entries.items; spare = l.spare } };

    ghost invariant = { λ l. (vec_len l.entries + l.spare ≤ vec_capacity l.entries) × AllInRange l.entries.items };
}

impl Log {
    /// No entries, and no spare.
    pub fn new(alloc: Global) -> Log
        ensures { (result.entries ≡ []) × (result.spare ≡ 0) }
    {
        Log {
            entries: Vec::new(alloc),
            spare: 0,
        }
    }

    /// How many entries there are.
    pub fn len(&self) -> u64
        ensures { result ≡ length self.now.entries }
    {
        self.entries.len() as u64
    }

    /// Whether there is no entry.
    pub fn is_empty(&self) -> bool
        ensures { IsTrue result ↔ (self.now.entries ≡ []) }
    {
        self.entries.is_empty()
    }

    /// Entry i, from 0; none where there are not so many. Its numbers are in their ranges.
    pub fn entry(&self, i: u64) -> Option<&Entry>
        ensures value { option_copied result ≡ slice_get self.now.entries i }
        ensures ranges { IfSome result (λ e. InRange e.now) }
    {
        self.entries.as_slice().get(i as usize)
    }

    /// How many entries can be appended without memory.
    pub fn spare(&self) -> u64
        ensures { result ≡ self.now.spare }
    {
        self.spare
    }

    /// Makes the spare at least n. Where memory runs out nothing changes.
    pub fn reserve(&mut self, n: u64) -> Result<(), OutOfMemory>
        ensures entries { self.new.entries ≡ self.old.entries }
        ensures ok { OnOk result (self.new.spare ≡ max self.old.spare n) }
        ensures err { OnErr result (self.new.spare ≡ self.old.spare) }
    {
        if n <= self.spare {
            return Ok(());
        }
        self.entries.reserve(n as usize)?;
        self.spare = n;
        Ok(())
    }

    /// Puts an entry behind the last one, and keeps the spare. Where memory runs out nothing changes.
    #[tactic(auto, using(crate::proofs::Ranges::range_more))]
    pub fn push(&mut self, entry: Entry) -> Result<(), OutOfMemory>
        requires { InRange entry }
        ensures spare { self.new.spare ≡ self.old.spare }
        ensures ok { OnOk result (self.new.entries ≡ self.old.entries ++ entry ∷ []) }
        ensures err { OnErr result (self.new.entries ≡ self.old.entries) }
    {
        let Some(room) = self.spare.checked_add(1) else {
            return Err(OutOfMemory);
        };
        self.entries.reserve(room as usize)?;
        self.entries.push(entry)?;
        Ok(())
    }

    /// Puts an entry behind the last one, out of the spare: it takes no memory.
    #[tactic(auto, using(crate::proofs::Ranges::range_more))]
    pub fn append(&mut self, entry: Entry)
        requires spare { 0 < self.old.spare }
        requires ranges { InRange entry }
        ensures entries { self.new.entries ≡ self.old.entries ++ entry ∷ [] }
        ensures spare { self.new.spare ≡ self.old.spare - 1 }
    {
        self.spare -= 1;
        let _pushed = self.entries.push(entry);
    }
}

/// One line, with its LF.
#[tactic(auto, using(crate::proofs::Whole::line_told, crate::proofs::Whole::not_begun, crate::proofs::Whole::not_ended))]
fn line(alloc: Global, bytes: &[u8]) -> Result<(Entry, &[u8]), LineRefusal>
    ensures { LineGives (λ x. (x.0, x.1.now)) bytes.now result }
{
    let (entry, next) = entry(alloc, bytes)?;
    match past(b'\n', next) {
        Some(after) => Ok((entry, after)),
        None => Err(LineRefusal::NoEntry),
    }
}

/// The entries of all lines.
#[tactic(auto, using(crate::proofs::Ranges::fits_in_range))]
fn read_lines(alloc: Global, bytes: &[u8]) -> Result<Log, LogRefusal>
    ensures { LogGives bytes.now result }
{
    if bytes.len() > 0x4000_0000 {
        return Err(LogRefusal::TooLong);
    }
    let mut log = Log::new(alloc);
    let mut rest = bytes;
    while !rest.is_empty() {
        match line(alloc, rest) {
            Ok((entry, after)) => {
                if log.push(entry).is_err() {
                    return Err(LogRefusal::Memory);
                }
                rest = after;
            }
            Err(LineRefusal::NoEntry) => return Err(LogRefusal::Line(log.len() + 1)),
            Err(LineRefusal::Memory) => return Err(LogRefusal::Memory),
        }
    }
    Ok(log)
}

/// The log whose text the bytes are, with no spare; else why there is none: the bytes are more than
/// 1 GiB, or this line is the first that is no entry's text with its LF.
#[tactic(auto, using(crate::proofs::Laws::reads_back))]
pub fn read_log(alloc: Global, bytes: &[u8]) -> Result<Log, LogRefusal>
    ensures given { LogGives bytes.now result }
    ensures only { ReadsBack bytes.now result }
{
    read_lines(alloc, bytes)
}

/// Each kind is found by its name.
#[tactic(auto, using(crate::proofs::Found::kind_found))]
pub fn kinds_are_found()
    ensures { KindsAreFound }
{}

/// No line states two entries.
#[tactic(auto, using(crate::proofs::Laws::one_entry))]
pub fn one_entry_a_line()
    ensures { OneEntryALine }
{}

/// No text of an entry holds an LF, or another control code.
#[tactic(auto, using(crate::proofs::Printed::no_lf))]
pub fn no_text_holds_lf()
    ensures { NoTextHoldsLf }
{}

/// An entry as its types hold it, whose import's number is 1 to 64, whose port's width is 1 or 2 and
/// whose rule is 1 to 14, is one whose line is read: so the text of any log reads back.
#[tactic(auto, using(crate::proofs::Held::held_fits))]
pub fn held_entries_fit()
    ensures { HeldEntriesFit }
{}
