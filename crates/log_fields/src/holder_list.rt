//! Lists of holders.

ghost use Rattle.std.specs.Prelude.{◌≡◌, List, ℕ, [], ◌∷◌, ◌++◌, length, OnOk, OnErr, IsTrue, ◌↔◌};
ghost use Rattle.nd_base.specs.declared.numbers.BindingNo.{BindingNo};

use nd_base::{BindingNo, OutOfMemory};
use std::alloc::Global;
use std::marker::Model;

/// The drivers that hold a loan, in the order of the list.
#[derive(Drop)]
pub struct Holders {
    items: Vec<BindingNo>,
}

impl Model for Holders {
    ghost Value = { List BindingNo };

    ghost view = { λ b. b.items.items };
}

impl Holders {
    /// No holders.
    pub fn new(alloc: Global) -> Holders
        ensures { result ≡ [] }
    {
        Holders {
            items: Vec::new(alloc),
        }
    }

    /// Puts a holder behind the last one.
    pub fn push(&mut self, x: BindingNo) -> Result<(), OutOfMemory>
        ensures ok { OnOk result (self.new ≡ self.old ++ x ∷ []) }
        ensures err { OnErr result (self.new ≡ self.old) }
    {
        self.items.push(x)?;
        Ok(())
    }

    /// How many holders there are.
    pub fn len(&self) -> usize
        ensures { result ≡ length self.now }
    {
        self.items.len()
    }

    /// Whether there is none.
    pub fn is_empty(&self) -> bool
        ensures { IsTrue result ↔ (self.now ≡ []) }
    {
        self.items.is_empty()
    }

    /// The holders.
    pub fn as_slice(&self) -> &[BindingNo]
        ensures { result.now ≡ self.now }
    {
        self.items.as_slice()
    }
}
