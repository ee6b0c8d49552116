//! Which calls of an object in memory are to fail.

ghost use Rattle.std.specs.Prelude.{◌≡◌, ◌∷◌, [], ◌++◌, ◌↔◌, IsTrue, OnOk, OnErr};
ghost use Rattle.nd_base.specs.FaultPlan.{IsNextToFail, after_call, one_more};

use crate::fault::OutOfMemory;
use std::alloc::Global;
use std::marker::Model;

/// How many calls were made, and the numbers, from 1, of those that are to fail.
#[derive(Debug, Drop)]
pub struct FaultPlan {
    count: u64,
    numbers: Vec<u64>,
}

impl Model for FaultPlan {
    ghost use Rattle.nd_base.specs.FaultPlan.{Plan, plan_code};

    ghost Value = { Plan };

    ghost coded = { plan_code };

    ghost view = { λ p. record { calls = p.count; failing = p.numbers.items } };
}

impl FaultPlan {
    /// No call was made, and none is to fail.
    pub fn new(alloc: Global) -> Self
        ensures { result ≡ record { calls = 0; failing = [] } }
    {
        FaultPlan {
            count: 0,
            numbers: Vec::new(alloc),
        }
    }

    /// The call of this number is to fail too.
    pub fn fail(&mut self, call: u64) -> Result<(), OutOfMemory>
        ensures ok { OnOk result (self.new ≡ record self.old { failing = self.old.failing ++ call ∷ [] }) }
        ensures err { OnErr result (self.new ≡ self.old) }
    {
        self.numbers.push(call)?;
        Ok(())
    }

    /// Counts a call, and says whether it is to fail.
    pub fn next_fails(&mut self) -> bool
        ensures answer { IsTrue result ↔ IsNextToFail self.old }
        ensures after { self.new ≡ after_call self.old }
    {
        if self.count == u64::MAX {
            return true;
        }
        self.count += 1;
        self.numbers.contains(&self.count)
    }
}

/// Raises a count by one, up to its last value.
pub fn raise(count: &mut u64)
    ensures { count.new ≡ one_more count.old }
{
    *count = count.saturating_add(1);
}
