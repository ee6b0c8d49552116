//! The law, as the contract of a function that does nothing.

ghost use Rattle.stop_rooms.specs.Rooms.{RoomsStay};

use run_duties::stops_may_stand;

/// Only a send, an indication and a question take room for their own ending.
pub fn rooms_stay()
    ensures { RoomsStay }
{
    stops_may_stand();
}
