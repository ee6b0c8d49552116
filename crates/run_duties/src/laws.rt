//! Duties of a run that are served: each law is the contract of a function that does nothing.

ghost use Rattle.run_duties.specs.Laws.{CallLaws, EndLaws, ServedLaws, StopLaws};

use legal_run::{code_laws, duties_are_served, replies_are_taken};
use packet_pool::room_laws;

/// Where a stop is due it may stand: behind a breach, a fault, a spent budget, and behind another stop.
pub fn stops_may_stand()
    ensures { StopLaws }
{}

/// Behind a call that waits for a lock its spin may stand, and where its reply is due there is one.
pub fn calls_go_on()
    ensures { CallLaws }
{
    code_laws();
    replies_are_taken();
    room_laws();
}

/// The end of a reset and the answer to a request may stand where they must, whether a call makes them or
/// the leave of their handler.
pub fn ends_may_stand()
    ensures { EndLaws }
{
    code_laws();
}

/// Each duty has an entry that serves it: no run is stuck where something must stand.
pub fn each_duty_is_served()
    ensures { ServedLaws }
{
    code_laws();
    replies_are_taken();
    duties_are_served();
    room_laws();
}
