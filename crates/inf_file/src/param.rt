//! Parameters, and why there are none.

ghost use Rattle.std.specs.Prelude.{◌≡◌};
ghost use Rattle.inf_file.specs.declared.param.ParamRefusal.TheVariants.{OutOfMemory};

use nd_base::Wide;
use thiserror::Error;

/// A parameter of a network adapter: its name, as it was first spelled, and its value.
#[derive(Debug, Drop)]
pub struct Param {
    pub name: Wide,
    pub value: ParamValue,
}

/// The value of a parameter, REG_SZ or REG_DWORD.
#[derive(Debug, Drop)]
pub enum ParamValue {
    Text(Wide),
    Number(u32),
}

/// Why an INF file gives a hardware id no parameters: the first of these, in this order. Lines are
/// numbered from 1.
#[derive(Clone, Copy, Debug, PartialEq, Eq, Error)]
pub enum ParamRefusal {
    /// Want of memory.
    #[error("out of memory")]
    OutOfMemory,
    /// No line of `[Version]` has a signature of Windows.
    #[error("the INF has no signature of Windows")]
    NoVersion,
    /// No model line has the hardware id.
    #[error("the INF has no model of the hardware id")]
    NoModel,
    /// The install section that the model line names does not exist.
    #[error("the INF has no install section of the model")]
    NoInstall,
    /// The first line that is read and has a `%key%` with no string.
    #[error("line {0} of the INF has a key that is not in its strings")]
    NoString(u32),
    /// The first row whose number is none below 2^32.
    #[error("line {0} of the INF has no number as its value")]
    BadValue(u32),
}

impl From<nd_base::OutOfMemory> for ParamRefusal {
    ghost from_gives = { λ _ e. e ≡ OutOfMemory };

    fn from(_error: nd_base::OutOfMemory) -> ParamRefusal {
        ParamRefusal::OutOfMemory
    }
}
