//! Lists that are gathered while a file is judged.

ghost use Rattle.std.specs.Prelude.{List, [], ◌∷◌, true, IfOk, ◌≡◌};
ghost use Rattle.pe_image.specs.Gathering.{IsGathered, HasGained};

use nd_base::OutOfMemory;
use std::alloc::Global;

/// A list that is given up once memory runs out. What is put behind it from then on is lost, so
/// that a file is judged to its end before want of memory is answered.
#[derive(Drop)]
pub struct Gathered<T> {
    items: Vec<T>,
    is_lost: bool,
}

impl<T: Drop> Gathered<T> {
    /// No items.
    pub fn new(alloc: Global) -> Self
        ensures { IsGathered result [] }
    {
        Gathered {
            items: Vec::new(alloc),
            is_lost: false,
        }
    }

    /// Puts an item behind the last one.
    pub fn push(&mut self, item: T)
        ensures { HasGained self.old self.new (item ∷ []) }
    {
        if !self.is_lost && self.items.push(item).is_err() {
            self.is_lost = true;
        }
    }

    /// Gives the list up.
    pub fn lose(&mut self)
        ensures { self.new.is_lost ≡ true }
    {
        self.is_lost = true;
    }

    /// The items, if memory did not run out.
    pub fn finish(self) -> Result<Vec<T>, OutOfMemory>
        ensures { (items : List T) → IsGathered self items → IfOk result (λ v. v.items ≡ items) }
    {
        if self.is_lost {
            return Err(OutOfMemory);
        }
        Ok(self.items)
    }
}
