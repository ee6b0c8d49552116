//! Why a file is not read.

ghost use Rattle.std.specs.Prelude.{◌≡◌};
ghost use Rattle.frame_wire.specs.declared.refusal.WireRefusal.TheVariants.{OutOfMemory};

use thiserror::Error;

/// Why a file of frames is not read: the first fault from its start, or want of memory where there
/// is none. A place is an offset in the file, that of the entry which is refused.
#[derive(Clone, Copy, Debug, PartialEq, Eq, Error)]
pub enum WireRefusal {
    /// Want of memory.
    #[error("out of memory")]
    OutOfMemory,
    /// More than 134,217,728 bytes, or bytes behind 65,536 entries.
    #[error("the file of frames is too long")]
    TooLong,
    /// No 24 bytes that begin with the magic number in either byte order. Files with times in
    /// nanoseconds, and pcapng files, have other magic numbers.
    #[error("no pcap header")]
    BadHeader,
    /// A link type other than 1, Ethernet: all 32 bits of the field, so also one whose upper bits
    /// tell of frame check sequences.
    #[error("the link type is {0}, not Ethernet")]
    LinkType(u32),
    /// An entry's bytes are not all there.
    #[error("the entry at {0} is cut short")]
    CutShort(u64),
    /// The two lengths of an entry differ, or are not 14 to 1,514.
    #[error("the entry at {0} has a wrong length")]
    Length(u64),
    /// An entry's time is before that of the entry before it.
    #[error("the entry at {0} is before the last one in time")]
    Backwards(u64),
}

impl From<nd_base::OutOfMemory> for WireRefusal {
    ghost from_gives = { λ _ e. e ≡ OutOfMemory };

    fn from(_error: nd_base::OutOfMemory) -> WireRefusal {
        WireRefusal::OutOfMemory
    }
}
