//! What is known of drivers. Each function here is a law: it does nothing.

ghost use Rattle.binding.specs.Follows.{ScriptsAreFollowed};
ghost use Rattle.binding.specs.Turns.{ActsAreToldFor};
ghost use Rattle.binding.specs.Keeps.{LoansAreKeptFor};

use crate::protocol::Protocol;

/// The turns of a driver with a script follow it: docs/SCRIPT.md has the rules as sentences.
pub fn scripts_are_followed()
    ensures { ScriptsAreFollowed }
{}

/// What a protocol asks, and its state, are a function of the outcomes of its turns.
pub fn acts_are_told<P: Protocol>()
    ensures { ActsAreToldFor P.meaning }
{}

/// Each loan that a protocol was told of is returned once, or it keeps it still; none where its loop
/// has ended.
pub fn loans_are_kept<P: Protocol>()
    ensures { LoansAreKeptFor P.meaning }
{}
