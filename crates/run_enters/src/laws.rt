//! What a run says before DriverEntry is entered: the contract of a function that does nothing.

ghost use Rattle.run_enters.specs.Entered.{AllAreFree};

use legal_run::entry_laws;
use run_duties::each_duty_is_served;
use run_facts::lists_keep_their_lengths;

/// Before DriverEntry is entered every context is free.
pub fn all_are_free()
    ensures { AllAreFree }
{
    entry_laws();
    each_duty_is_served();
    lists_keep_their_lengths();
}
