//! The kinds of test miniports.

ghost use Rattle.std.specs.Prelude.{◌≡◌, ◌≢◌, MatchOption};
ghost use Rattle.forged_miniports.specs.Kinds.{name_of, source_of};

use crate::deserial::DESERIAL;
use crate::double::DOUBLE;
use crate::idle::IDLE;
use crate::mute::MUTE;
use crate::scarce::SCARCE;

/// A kind: what the miniport does with packets that are sent. All kinds register as NDIS 5.0, give
/// their attributes, answer requests and halt.
#[derive(Clone, Copy, Debug, PartialEq, Eq)]
pub enum Kind {
    /// Each packet is sent at once.
    Idle,
    /// Each packet is completed twice.
    Double,
    /// The miniport has no resources for a packet now and then.
    Scarce,
    /// No packet is completed.
    Mute,
    /// The miniport is deserialized, and completes each packet by a call.
    Deserial,
}

/// The kind of a name.
pub fn kind_named(name: &str) -> Option<Kind>
    ensures { MatchOption result ((kind : Kind) → name.now ≢ name_of kind) (λ kind. name.now ≡ name_of kind) }
{
    if name == "idle" {
        Some(Kind::Idle)
    } else if name == "double" {
        Some(Kind::Double)
    } else if name == "scarce" {
        Some(Kind::Scarce)
    } else if name == "mute" {
        Some(Kind::Mute)
    } else if name == "deserial" {
        Some(Kind::Deserial)
    } else {
        None
    }
}

/// The source text of a kind.
#[tactic(auto, unfolding(crate::specs::Kinds::source_of))]
pub fn source_of(kind: Kind) -> &'static [u8]
    ensures { result.now ≡ source_of kind }
{
    match kind {
        Kind::Idle => IDLE,
        Kind::Double => DOUBLE,
        Kind::Scarce => SCARCE,
        Kind::Mute => MUTE,
        Kind::Deserial => DESERIAL,
    }
}
