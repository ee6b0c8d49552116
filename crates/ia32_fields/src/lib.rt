//! Laws of the fields of instructions, above the spelling of instructions: each is the contract of a
//! function that does nothing. They say which bytes of an instruction hold a number of it, so that the
//! number can be put in later: of an address that is not known yet.
#![tactic(auto)]

ghost use Rattle.ia32_fields.specs.Fields.{WideImmediates, WideOffsets};
ghost use Rattle.ia32_fields.specs.Calls.{CallsAreSpelled};
ghost use Rattle.ia32_fields.specs.Jumps.{JumpsAreSpelled};

/// An immediate that needs four bytes is the last four, and any other number may stand there.
pub fn wide_immediates()
    ensures { WideImmediates }
{}

/// An offset that needs four bytes is four of them, and any other number may stand there.
pub fn wide_offsets()
    ensures { WideOffsets }
{}

/// An indirect call through any address has bytes.
pub fn calls_are_spelled()
    ensures { CallsAreSpelled }
{}

/// Jumps and calls by a displacement have bytes.
pub fn jumps_are_spelled()
    ensures { JumpsAreSpelled }
{}
