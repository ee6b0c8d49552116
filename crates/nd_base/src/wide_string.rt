//! Strings of 16-bit units that grow.

ghost use Rattle.std.specs.Prelude.{◌≡◌, ℕ, List, [], ◌∷◌, ◌++◌, length, IfOk, OnOk, OnErr, IsTrue, ◌↔◌};

use crate::fault::OutOfMemory;
use std::alloc::Global;
use std::marker::Model;

/// A string of 16-bit units, seen as the list of them.
#[derive(Debug, Drop)]
pub struct Wide {
    units: Vec<u16>,
}

impl Model for Wide {
    ghost Value = { List ℕ };

    ghost view = { λ b. b.units.items };
}

impl Wide {
    /// No units.
    pub fn new(alloc: Global) -> Wide
        ensures { result ≡ [] }
    {
        Wide {
            units: Vec::new(alloc),
        }
    }

    /// The units of a slice.
    pub fn copy(alloc: Global, from: &[u16]) -> Result<Wide, OutOfMemory>
        ensures { IfOk result (λ b. b ≡ from.now) }
    {
        let units = Vec::from_slice(alloc, from)?;
        Ok(Wide { units })
    }

    /// Puts a unit behind the last one.
    pub fn push(&mut self, x: u16) -> Result<(), OutOfMemory>
        ensures ok { OnOk result (self.new ≡ self.old ++ x ∷ []) }
        ensures err { OnErr result (self.new ≡ self.old) }
    {
        self.units.push(x)?;
        Ok(())
    }

    /// Puts units behind the last one.
    pub fn extend_from_slice(&mut self, piece: &[u16]) -> Result<(), OutOfMemory>
        ensures ok { OnOk result (self.new ≡ self.old ++ piece.now) }
        ensures err { OnErr result (self.new ≡ self.old) }
    {
        self.units.extend_from_slice(piece)?;
        Ok(())
    }

    /// How many units there are.
    pub fn len(&self) -> usize
        ensures { result ≡ length self.now }
    {
        self.units.len()
    }

    /// Whether there is no unit.
    pub fn is_empty(&self) -> bool
        ensures { IsTrue result ↔ (self.now ≡ []) }
    {
        self.units.is_empty()
    }

    /// The units.
    pub fn as_slice(&self) -> &[u16]
        ensures { result.now ≡ self.now }
    {
        self.units.as_slice()
    }

    /// Another string with these units.
    pub fn copied(&self, alloc: Global) -> Result<Wide, OutOfMemory>
        ensures { IfOk result (λ b. b ≡ self.now) }
    {
        Wide::copy(alloc, self.as_slice())
    }
}
