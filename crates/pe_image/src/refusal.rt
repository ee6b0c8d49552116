//! Why a file is not read.

ghost use Rattle.std.specs.Prelude.{◌≡◌};
ghost use Rattle.pe_image.specs.declared.refusal.PeRefusal.TheVariants.{OutOfMemory};

use std::alloc::{AllocError, AllocFailed};
use std::error::Error;
use std::fmt;

/// Why a file is not read: the first thing that is wrong with it, with its offset in the file, its
/// RVA in the image, or the number of the section or data directory.
#[derive(Clone, Copy, PartialEq, Eq)]
pub enum PeRefusal {
    OutOfMemory,
    /// The file or its image has more than 4 MiB, or more than 96 sections or 4,096 imports.
    TooLarge,
    /// The file ends in the structure at this offset.
    Short(u32),
    NotPe,
    NotI386,
    NotPe32,
    /// The section of this number passes the image's end, or its raw part the file's.
    BadSection(u16),
    /// The section of this number shares an address with an earlier one or with the headers.
    Overlap(u16),
    /// The entry point is in no executable section.
    BadEntry,
    /// The data directory of this number lies outside the sections.
    BadDirectory(u8),
    /// The block or the entry at this RVA is wrong.
    BadReloc(u32),
    /// The image has another base, and its relocations are stripped.
    RelocsStripped,
    /// The descriptor, thunk, slot or name at this RVA is wrong.
    BadImport(u32),
    /// The thunk at this RVA imports by ordinal.
    Ordinal(u32),
}

impl PeRefusal {
    /// What is wrong, and where.
    fn words(self) -> (&'static str, Option<u32>) {
        match self {
            PeRefusal::OutOfMemory => ("out of memory", None),
            PeRefusal::TooLarge => ("the file is too large", None),
            PeRefusal::Short(at) => ("the file ends in the structure at", Some(at)),
            PeRefusal::NotPe => ("the file is no PE file", None),
            PeRefusal::NotI386 => ("the file is not for i386", None),
            PeRefusal::NotPe32 => ("the file is no PE32 image", None),
            PeRefusal::BadSection(n) => ("no room for section", Some(u32::from(n))),
            PeRefusal::Overlap(n) => ("earlier addresses in section", Some(u32::from(n))),
            PeRefusal::BadEntry => ("the entry point is in no executable section", None),
            PeRefusal::BadDirectory(n) => ("no section has data directory", Some(u32::from(n))),
            PeRefusal::BadReloc(rva) => ("wrong base relocation at", Some(rva)),
            PeRefusal::RelocsStripped => ("another base, and relocations are stripped", None),
            PeRefusal::BadImport(rva) => ("wrong import at", Some(rva)),
            PeRefusal::Ordinal(rva) => ("import by ordinal at", Some(rva)),
        }
    }
}

impl fmt::Display for PeRefusal {
    fn fmt<W: fmt::Write>(&self, f: &mut fmt::Formatter<W>) -> fmt::Result {
        match self.words() {
            (words, Some(place)) => write!(f, "{words} {place}"),
            (words, None) => f.write_str(words),
        }
    }
}

impl fmt::Debug for PeRefusal {
    fn fmt<W: fmt::Write>(&self, f: &mut fmt::Formatter<W>) -> fmt::Result {
        write!(f, "{self}")
    }
}

impl Error for PeRefusal {}

impl From<AllocError> for PeRefusal {
    ghost from_gives = { λ _ e. e ≡ OutOfMemory };

    fn from(_error: AllocError) -> Self {
        PeRefusal::OutOfMemory
    }
}

impl<T: Drop> From<AllocFailed<T>> for PeRefusal {
    ghost from_gives = { λ _ e. e ≡ OutOfMemory };

    fn from(_error: AllocFailed<T>) -> Self {
        PeRefusal::OutOfMemory
    }
}

impl From<nd_base::OutOfMemory> for PeRefusal {
    ghost from_gives = { λ _ e. e ≡ OutOfMemory };

    fn from(_error: nd_base::OutOfMemory) -> Self {
        PeRefusal::OutOfMemory
    }
}
