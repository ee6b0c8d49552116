//! Laws of the clock: each is the contract of a function that does nothing.

ghost use Rattle.dpc_timer.specs.Laws.{TimeLaws, TimerLaws};

/// The clock never falls; there is one first due timer and one next moment.
pub fn time_laws()
    ensures { TimeLaws }
{}

/// What a taken, armed or cancelled timer is, and that all others stay.
pub fn timer_laws()
    ensures { TimerLaws }
{}
