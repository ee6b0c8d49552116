//! Why a call fails.

ghost use Rattle.std.specs.Prelude.{◌≡◌};
ghost use Rattle.nd_base.specs.declared.fault.IoFault.TheVariants.{Memory};

use std::alloc::{AllocError, AllocFailed};
use thiserror::Error;

/// No memory is left for what was asked.
#[derive(Clone, Copy, Debug, PartialEq, Eq, Error)]
#[error("out of memory")]
pub struct OutOfMemory;

impl From<AllocError> for OutOfMemory {
    ghost from_gives = { λ _ e. e ≡ record {} };

    fn from(_error: AllocError) -> OutOfMemory {
        OutOfMemory
    }
}

impl<T: Drop> From<AllocFailed<T>> for OutOfMemory {
    ghost from_gives = { λ _ e. e ≡ record {} };

    fn from(_error: AllocFailed<T>) -> OutOfMemory {
        OutOfMemory
    }
}

/// Why a call on a file or a sink fails.
#[derive(Clone, Copy, Debug, PartialEq, Eq, Error)]
pub enum IoFault {
    /// The device refused the call.
    #[error("the device failed")]
    Failed,
    /// Want of memory, which only files and sinks in memory answer.
    #[error("out of memory")]
    Memory,
}

impl From<OutOfMemory> for IoFault {
    ghost from_gives = { λ _ e. e ≡ Memory };

    fn from(_error: OutOfMemory) -> IoFault {
        IoFault::Memory
    }
}
