//! Why a source is not assembled.

ghost use Rattle.std.specs.Prelude.{◌≡◌};
ghost use Rattle.sys_forge.specs.Reasons.{refusal_at};

use line_bytes::Refused;
use thiserror::Error;

/// Why a source is not assembled. Lines are numbered from 1.
#[derive(Clone, Copy, Debug, PartialEq, Eq, Error)]
pub enum ForgeRefusal {
    /// Want of memory.
    #[error("out of memory")]
    OutOfMemory,
    /// The line is no line of source, repeats a label or names one that there is not, or its operands
    /// are of no form of its mnemonic.
    #[error("line {0} is no line of source")]
    Line(u64),
    /// A value on the line does not fit its field, or the line takes the image past 4 MiB.
    #[error("a value on line {0} does not fit")]
    Range(u64),
}

/// The refusal of the line of a number.
pub fn refusal_at(refused: Refused, line: u64) -> ForgeRefusal
    ensures { result ≡ refusal_at refused line }
{
    match refused {
        Refused::OutOfMemory => ForgeRefusal::OutOfMemory,
        Refused::Line => ForgeRefusal::Line(line),
        Refused::Range => ForgeRefusal::Range(line),
    }
}
