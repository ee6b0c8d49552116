//! A frame on its way to the wire.

ghost use Rattle.std.specs.Prelude.{◌≡◌, ◌≤◌, length};

use std::marker::Model;

/// A frame of at most 1,514 bytes, kept without taking memory.
#[derive(Drop)]
pub struct SentFrame {
    bytes: [u8; 1514],
    length: usize,
}

impl Model for SentFrame {
    ghost use Rattle.std.specs.Prelude.{ℕ, List, take, ◌≤◌};

    ghost Value = { List ℕ };

    ghost view = { λ f. take f.length f.bytes };

    ghost invariant = { λ f. f.length ≤ 1514 };
}

impl SentFrame {
    /// A copy of a frame.
    pub fn copy(frame: &[u8]) -> SentFrame
        requires { length frame.now ≤ 1514 }
        ensures { result ≡ frame.now }
    {
        let mut bytes = [0; 1514];
        let length = frame.len();
        bytes[..length].copy_from_slice(frame);
        SentFrame { bytes, length }
    }

    /// Its bytes.
    pub fn as_slice(&self) -> &[u8]
        ensures { result.now ≡ self.now }
    {
        &self.bytes[..self.length]
    }
}
