//! Refusals of a log.

/// Why no log was read.
#[derive(Clone, Copy, PartialEq, Eq)]
pub enum LogRefusal {
    /// Memory ran out.
    Memory,
    /// The bytes are more than 1 GiB.
    TooLong,
    /// The first line that is no entry's text, counted from 1.
    Line(u64),
}
