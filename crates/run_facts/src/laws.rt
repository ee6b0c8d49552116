//! What holds in every state of a run: each law is the contract of a function that does nothing.

ghost use Rattle.run_facts.specs.Facts.{AdaptersAreGiven, CallsAgree, CallsCanBeAnswered, ContextsAreReady, CountsHold, ExpirationsAreFew, GoesOn, LevelsAgree, PeriodsAreShort, SpentAreDue};

use legal_run::{calls_keep, charges_are_sums, entry_laws};
use run_duties::{calls_go_on, each_duty_is_served, stops_may_stand};

/// The state before the first entry is one of a run, and so is what each entry leaves that may stand.
pub fn runs_go_on()
    ensures { GoesOn }
{}

/// The lists of a state are as long as what they are of.
pub fn lists_keep_their_lengths()
    ensures { CountsHold }
{
    stops_may_stand();
}

/// An open handler is in a call in the owner machine exactly where its context has an open call.
pub fn calls_agree()
    ensures { CallsAgree }
{
    entry_laws();
}

/// A context runs at a level exactly where its handler is open.
pub fn levels_agree()
    ensures { LevelsAgree }
{
    stops_may_stand();
}

/// The adapter of an open handler is one of those that were given, and so is each that is not stopped.
pub fn adapters_are_given()
    ensures { AdaptersAreGiven }
{
    stops_may_stand();
}

/// A context that goes on works and runs at a level; one that is entered has no level, its adapter is one
/// of those that were given, and its handler has sixteen words at most.
pub fn contexts_are_ready()
    ensures { ContextsAreReady }
{
    entry_laws();
    stops_may_stand();
    each_duty_is_served();
}

/// In every state of a run no frame that a card sent waits to be taken, and the world has a part for each
/// adapter that was given; so a call of an open context can be answered while the clock has room.
pub fn calls_can_be_answered()
    ensures { CallsCanBeAnswered }
{
    calls_keep();
    calls_go_on();
    stops_may_stand();
}

/// The period of an adapter's hang checks is no longer than the longest time that a call names, so the
/// clock has room for the next check where it has room for a call.
pub fn periods_are_short()
    ensures { PeriodsAreShort }
{}

/// No more timers and hang checks have expired than there are entries.
pub fn expirations_are_few()
    ensures { ExpirationsAreFew }
{}

/// Where memory never ran out, an adapter that has spent its budget and is not stopped is due to be
/// stopped; so no context has reached its budget that may go on, or whose call is answered.
pub fn spent_are_due()
    ensures { SpentAreDue }
{
    charges_are_sums();
    entry_laws();
    stops_may_stand();
    each_duty_is_served();
}
