//! Laws of runs: each is the contract of a function that does nothing.

ghost use Rattle.legal_run.specs.Laws.{RunLaws, ClockLaws, NothingStandsBetween, ChargesAreSums, RunsAreLegal, RepliesAreTaken, CallsKeep};

/// Every front of a run is a run; a run goes on by one entry that meets what it needs in the one state
/// that the run leaves.
pub fn run_laws()
    ensures { RunLaws }
{}

/// The clock is the last `time` and all charges since, and does not fall.
pub fn clock_laws()
    ensures { ClockLaws }
{}

/// Where something must stand, no command stands, no turn, call, leave or fault, no frame and no jump of
/// the clock.
pub fn nothing_stands_between()
    ensures { NothingStandsBetween }
{}

/// What an adapter is charged is the sum of its turns and replies, and of DriverEntry's.
pub fn charges_are_sums()
    ensures { ChargesAreSums }
{}

/// Every run is a legal log of the owner machine, whose laws therefore hold of it.
pub fn runs_are_legal()
    ensures { RunsAreLegal }
{}

/// What an import's row answers at once is a reply that the run takes.
pub fn replies_are_taken()
    ensures { RepliesAreTaken }
{}

/// Behind an import's answer the clock's moment, memory and layout are as they were, a context that is
/// open stays open, and the adapters are the same, with no frame waiting where none did.
pub fn calls_keep()
    ensures { CallsKeep }
{}
