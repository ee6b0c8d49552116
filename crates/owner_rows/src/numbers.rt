//! The numbers of rows.

ghost use Rattle.std.specs.Prelude.{◌≡◌, ◌==◌, ◌<◌, List, ℕ, [], ◌∷◌, ◌++◌, OnOk, OnErr, length, position, slice_index};
ghost use Rattle.owner_machine.specs.State.{in_front};
ghost use Rattle.owner_rows.specs.Tallies.{without, kept};

use nd_base::OutOfMemory;
use std::alloc::Global;
use std::collections::VecDeque;
use std::marker::Model;

/// Numbers in a row, seen as the list of them.
#[derive(Drop)]
pub(crate) struct Numbers {
    items: VecDeque<u64>,
}

impl Model for Numbers {
    ghost Value = { List ℕ };

    ghost view = { λ n. n.items.items };
}

impl Numbers {
    /// No numbers.
    pub(crate) fn new(alloc: Global) -> Numbers
        ensures { result ≡ [] }
    {
        Numbers {
            items: VecDeque::new(alloc),
        }
    }

    /// How many there are.
    pub(crate) fn len(&self) -> usize
        ensures { result ≡ length self.now }
    {
        self.items.len()
    }

    /// The number at a place.
    pub(crate) fn at(&self, i: usize) -> u64
        requires { i < length self.now }
        ensures { result ≡ slice_index self.now i }
    {
        self.items[i]
    }

    /// Puts a number behind the last one.
    pub(crate) fn push(&mut self, n: u64) -> Result<(), OutOfMemory>
        ensures ok { OnOk result (self.new ≡ self.old ++ n ∷ []) }
        ensures err { OnErr result (self.new ≡ self.old) }
    {
        self.items.push_back(n)?;
        Ok(())
    }

    /// Puts the number of a row that passes behind the last one.
    pub(crate) fn push_if(&mut self, n: u64, passes: bool) -> Result<(), OutOfMemory>
        ensures ok { OnOk result (self.new ≡ self.old ++ in_front passes n []) }
        ensures err { OnErr result (self.new ≡ self.old) }
    {
        if passes {
            self.push(n)?;
        }
        Ok(())
    }

    /// Where a number stands first.
    fn place_of(&self, n: u64) -> Option<usize>
        ensures { result ≡ position (λ x. x == n) self.now }
    {
        self.items.iter().position(|x| *x == n)
    }

    /// Takes a number away, where it stands first.
    #[tactic(auto, using(crate::proofs::Removed::removed_at, crate::proofs::Removed::not_there))]
    fn remove(&mut self, n: u64)
        ensures { self.new ≡ without n self.old }
    {
        if let Some(i) = self.place_of(n) {
            let _gone = self.items.remove(i);
        }
    }

    /// The number of a row that passed, and does so no more, goes.
    pub(crate) fn keep(&mut self, n: u64, was: bool, is: bool)
        ensures { self.new ≡ kept was is n self.old }
    {
        if was && !is {
            self.remove(n);
        }
    }
}
