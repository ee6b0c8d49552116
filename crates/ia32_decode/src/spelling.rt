//! The bytes that spell an instruction.

ghost use Rattle.std.specs.Prelude.{◌≡◌, ◌+◌, ◌<◌, [], ◌∷◌, ◌++◌, length};

use std::marker::Model;

/// Bytes, 15 at most.
#[derive(Drop)]
pub struct Spelling {
    bytes: [u8; 15],
    length: usize,
}

impl Model for Spelling {
    ghost use Rattle.std.specs.Prelude.{ℕ, List, ◌≤◌, take};

    ghost Value = { List ℕ };

    ghost view = { λ s. take s.length s.bytes };

    ghost invariant = { λ s. s.length ≤ 15 };
}

impl Spelling {
    pub(crate) fn new() -> Self
        ensures { result ≡ [] }
    {
        Spelling {
            bytes: [0; 15],
            length: 0,
        }
    }

    pub(crate) fn push(&mut self, byte: u8)
        requires { length self.old < 15 }
        ensures bytes { self.new ≡ self.old ++ byte ∷ [] }
        ensures length { length self.new ≡ length self.old + 1 }
    {
        self.bytes[self.length] = byte;
        self.length += 1;
    }

    /// The bytes.
    pub fn as_slice(&self) -> &[u8]
        ensures { result.now ≡ self.now }
    {
        &self.bytes[..self.length]
    }
}
