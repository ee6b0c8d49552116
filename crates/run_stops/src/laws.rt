//! Laws of moves and of tails, by the log.

ghost use Rattle.run_stops.specs.Standing.{MovesAdd, StatesAreFree};
ghost use Rattle.run_stops.specs.Stopping.{StopsTakeRoom, TailsGoOn};

use legal_run::{duties_are_served, run_laws};

/// A move adds its entry to the log, and what is kept shows the state that the log leaves.
pub fn moves_add()
    ensures { MovesAdd }
{
    run_laws();
}

/// Nothing must stand where neither the owner machine nor what stood last asks for something.
pub fn states_are_free()
    ensures { StatesAreFree }
{}

/// What serves the owner machine in the tail of a stop may stand there, and leaves all else.
pub fn tails_go_on()
    ensures { TailsGoOn }
{
    duties_are_served();
}

/// The room for the stops of all adapters is the sum of what each takes.
pub fn stops_take_room()
    ensures { StopsTakeRoom }
{}
