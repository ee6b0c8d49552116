//! Free ranges of a row of units.

ghost use Rattle.std.specs.Prelude.{ℕ, ◌≡◌, ◌≤◌, ◌<◌, ◌+◌, ◌^◌, slice_index, IfOk, MatchOption};
ghost use Rattle.free_ranges.specs.Ranges.{IsFit, IsFirstFit, AreInside, Takes, Gives, AreTaken, AllFree, units};

use crate::tournament::Tournament;
use std::alloc::{AllocError, Global};
use std::marker::Model;

/// Which units are free, seen as the length of the free range that begins at each unit, 0 where
/// none does.
#[derive(Drop)]
pub struct FreeRanges {
    lengths: Tournament,
    /// The length of the free range that ends in front of a unit, 0 where none does.
    ends: Vec<u32>,
}

impl Model for FreeRanges {
    ghost use Rattle.std.specs.Prelude.{List, ℕ};
    ghost use Rattle.free_ranges.specs.Ranges.{AreKept};

    ghost Value = { List ℕ };

    ghost view = { λ r. r.lengths };

    ghost invariant = { λ r. AreKept r.lengths r.ends.items };
}

impl FreeRanges {
    /// A row of so many units, all of them free.
    pub fn new(alloc: Global, units: u32) -> Result<FreeRanges, AllocError>
        requires some { 1 ≤ units }
        requires small { units ≤ 2 ^ 30 }
        ensures { IfOk result (λ r. AllFree units r) }
    {
        let mut lengths = Tournament::new(alloc, units)?;
        lengths.set(0, units);
        let mut ends = vec![in alloc; 0; units as usize + 1]?;
        ends[units as usize] = units;
        Ok(FreeRanges { lengths, ends })
    }

    /// A unit from which on so many are free, where a free range begins: in a row of 2^k units, the
    /// first one.
    pub fn fit(&self, length: u32) -> Option<u32>
        requires { 0 < length }
        ensures fit { IsFit (slice_index self.now) length result }
        ensures first { (k : ℕ) → units self.now ≡ 2 ^ k → IsFirstFit (slice_index self.now) length result }
        ensures inside { AreInside self.now }
    {
        self.lengths.not_below(length)
    }

    /// Takes units at the beginning of a free range, where `fit` finds them.
    pub fn take_at(&mut self, first: u32, length: u32)
        requires some { 0 < length }
        requires free { length ≤ slice_index self.old first }
        ensures { Takes self.old self.new first length }
    {
        let before = self.lengths.get(first);
        let rest = before - length;
        self.lengths.set(first, 0);
        self.lengths.set(first + length, rest);
        self.ends[(first + before) as usize] = rest;
    }

    /// Takes so many free units in a row: the first of them, or none where there are not so many.
    pub fn take(&mut self, length: u32) -> Option<u32>
        requires { 0 < length }
        ensures fit { IsFit (slice_index self.old) length result }
        ensures change { MatchOption result (self.new ≡ self.old) (λ first. Takes self.old self.new first length) }
    {
        let first = self.fit(length)?;
        self.take_at(first, length);
        Some(first)
    }

    /// Gives units back of which none is free.
    pub fn give_back(&mut self, first: u32, length: u32)
        requires some { 0 < length }
        requires inside { first + length ≤ units self.old }
        requires taken { AreTaken (slice_index self.old) first length }
        ensures { Gives self.old self.new first length }
    {
        let before = self.ends[first as usize];
        let past = first + length;
        let behind = self.lengths.get(past);
        let whole = before + length + behind;
        self.lengths.set(past, 0);
        self.lengths.set(first - before, whole);
        self.ends[first as usize] = 0;
        self.ends[(past + behind) as usize] = whole;
    }
}
