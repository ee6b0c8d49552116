//! Phases, and requests that wait.

ghost use Rattle.std.specs.Prelude.{◌≡◌};
ghost use Rattle.legal_run.specs.State.{is_alive, is_serving, is_starting};
ghost use Rattle.owner_machine.specs.State.{is_running};
ghost use Rattle.owed_handlers.specs.Kept.{asks};

use nd_base::Phase;

/// Neither off nor stopped.
pub(crate) fn is_alive(phase: Phase) -> bool
    ensures { result ≡ is_alive phase }
{
    !matches!(phase, Phase::Off | Phase::Stopped)
}

/// Running or resetting.
pub(crate) fn is_serving(phase: Phase) -> bool
    ensures { result ≡ is_serving phase }
{
    matches!(phase, Phase::Running | Phase::Resetting)
}

pub(crate) fn is_running(phase: Phase) -> bool
    ensures { result ≡ is_running phase }
{
    matches!(phase, Phase::Running)
}

pub(crate) fn is_starting(phase: Phase) -> bool
    ensures { result ≡ is_starting phase }
{
    matches!(phase, Phase::Starting)
}

/// Whether the least request that waits is one of this kind: a set, or a query.
pub(crate) fn asks(set: bool, request: Option<bool>) -> bool
    ensures { result ≡ asks set request }
{
    match request {
        Some(is_set) => { if set { is_set } else { !is_set } }
        None => false,
    }
}
