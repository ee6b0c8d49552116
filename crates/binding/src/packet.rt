//! Packets and loans, which must be spent.

ghost use Rattle.std.specs.Prelude.{◌≡◌, ◌≤◌, length, MatchResult};
ghost use Rattle.binding.specs.Frames.{IsEthernetLong};

use nd_base::{BindingNo, Bytes, LoanNo};
use std::marker::Model;

/// A packet of 14 to 1,514 bytes, seen as these. It can't be dropped: whoever has it gives it on, or
/// spends it.
#[must_use]
pub struct Packet {
    bytes: Bytes,
}

impl Model for Packet {
    ghost use Rattle.std.specs.Prelude.{ℕ, List};
    ghost use Rattle.binding.specs.Frames.{IsEthernetLong};

    ghost Value = { List ℕ };

    ghost view = { λ p. p.bytes };

    ghost invariant = { λ p. IsEthernetLong p.bytes };
}

impl Packet {
    /// A packet of these bytes, which are handed back where they are not 14 to 1,514.
    pub fn new(bytes: Bytes) -> Result<Packet, Bytes>
        ensures { MatchResult result (λ p. (p ≡ bytes) × IsEthernetLong bytes) (λ back. (back ≡ bytes) × ¬ IsEthernetLong bytes) }
    {
        let len = bytes.len();
        if len < 14 || len > 1514 {
            return Err(bytes);
        }
        Ok(Packet { bytes })
    }

    /// Ends a packet.
    pub fn spend(self) -> Bytes
        ensures bytes { result ≡ self }
        ensures long { IsEthernetLong self }
    {
        let Packet { bytes } = self;
        bytes
    }

    /// Its bytes.
    pub fn as_slice(&self) -> &[u8]
        ensures bytes { result.now ≡ self.now }
        ensures long { IsEthernetLong self.now }
    {
        self.bytes.as_slice()
    }
}

/// A loan: a frame of a miniport's packet, which a driver holds until it returns it. It can't be
/// dropped.
#[must_use]
pub struct Loan {
    /// The driver that holds it.
    pub driver: BindingNo,
    /// Its number.
    pub number: LoanNo,
}
