//! Why a script is not read.

ghost use Rattle.std.specs.Prelude.{◌≡◌};
ghost use Rattle.driver_script.specs.declared.refusal.ScriptRefusal.TheVariants.{OutOfMemory};

use thiserror::Error;

/// Why a script is not read: its first fault, or want of memory where there is none.
#[derive(Clone, Copy, Debug, PartialEq, Eq, Error)]
pub enum ScriptRefusal {
    /// Want of memory.
    #[error("out of memory")]
    OutOfMemory,
    /// More than 1,048,576 bytes.
    #[error("the script is too long")]
    TooLong,
    /// The first line, numbered from 1, with which no script begins; or one more than the number of
    /// lines where only an adapter is missing.
    #[error("line {0} is no line of a script there")]
    Line(u64),
}

impl From<nd_base::OutOfMemory> for ScriptRefusal {
    ghost from_gives = { λ _ e. e ≡ OutOfMemory };

    fn from(_error: nd_base::OutOfMemory) -> ScriptRefusal {
        ScriptRefusal::OutOfMemory
    }
}
