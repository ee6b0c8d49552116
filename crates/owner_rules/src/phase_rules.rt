//! Drivers, and the phases of adapters.

ghost use Rattle.std.specs.Prelude.{◌≡◌};
ghost use Rattle.owner_machine.specs.State.{bound, adapter_of, phase_is, is_running, is_resetting, stands, no_adapter};
ghost use Rattle.owner_machine.specs.Contexts.{serialized};
ghost use Rattle.owner_machine.specs.Adapters.{lives};
ghost use Rattle.owner_rules.specs.State.{owner_of};

use crate::ledger::Ledger;
use nd_base::Phase;
use owner_machine::Binding;

/// The number of no adapter.
pub(crate) const NO_ADAPTER: u8 = 255;

impl Ledger {
    /// Whether a driver is bound.
    pub fn is_bound(&self, b: u8) -> bool
        ensures { result ≡ bound (owner_of self.now) b }
    {
        match self.drivers.get(b as usize) {
            Some(driver) => matches!(driver.binding, Binding::Bound),
            None => false,
        }
    }

    /// The adapter of a driver; 255 for none.
    pub fn adapter_of(&self, b: u8) -> u8
        ensures { result ≡ adapter_of (owner_of self.now) b }
    {
        match self.drivers.get(b as usize) {
            Some(driver) => driver.adapter.0,
            None => NO_ADAPTER,
        }
    }

    /// Whether an adapter is Running.
    pub fn is_running(&self, a: u8) -> bool
        ensures { result ≡ phase_is is_running (owner_of self.now) a }
    {
        match self.adapters.get(a as usize) {
            Some(row) => matches!(row.phase, Phase::Running),
            None => false,
        }
    }

    /// Whether an adapter is Resetting.
    pub fn is_resetting(&self, a: u8) -> bool
        ensures { result ≡ phase_is is_resetting (owner_of self.now) a }
    {
        match self.adapters.get(a as usize) {
            Some(row) => matches!(row.phase, Phase::Resetting),
            None => false,
        }
    }

    /// Whether an adapter is Running or Resetting.
    pub fn lives(&self, a: u8) -> bool
        ensures { result ≡ lives (owner_of self.now) a }
    {
        self.is_running(a) || self.is_resetting(a)
    }

    /// Whether an adapter is there, and not Stopped.
    pub fn stands(&self, a: u8) -> bool
        ensures { result ≡ stands (owner_of self.now) a }
    {
        match self.adapters.get(a as usize) {
            Some(row) => !matches!(row.phase, Phase::Stopped),
            None => false,
        }
    }

    /// Whether an adapter's miniport is serialized.
    pub fn is_serialized(&self, a: u8) -> bool
        ensures { result ≡ serialized (owner_of self.now) a }
    {
        match self.adapters.get(a as usize) {
            Some(row) => !row.deserialized,
            None => false,
        }
    }
}
