//! Why an INF file is not read.

ghost use Rattle.std.specs.Prelude.{◌≡◌};
ghost use Rattle.inf_text.specs.declared.refusal.InfRefusal.TheVariants.{OutOfMemory};

use thiserror::Error;

/// Why an INF file is not read: the first fault. A fault of the text comes before one of a line.
#[derive(Clone, Copy, Debug, PartialEq, Eq, Error)]
pub enum InfRefusal {
    /// Want of memory.
    #[error("out of memory")]
    OutOfMemory,
    /// More than 1,048,576 bytes.
    #[error("the INF file is too long")]
    TooLong,
    /// At this byte of the file stands a zero character, half of a surrogate pair without the
    /// other, or half of a UTF-16 character.
    #[error("the byte at {0} is no text")]
    BadText(u32),
    /// The line of this number, from 1, has open quotes, is a header without `]`, or stands before
    /// the first header.
    #[error("line {0} is no line of an INF file")]
    Line(u32),
}

impl From<nd_base::OutOfMemory> for InfRefusal {
    ghost from_gives = { λ _ e. e ≡ OutOfMemory };

    fn from(_error: nd_base::OutOfMemory) -> InfRefusal {
        InfRefusal::OutOfMemory
    }
}
