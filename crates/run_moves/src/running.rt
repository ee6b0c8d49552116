//! A run while it goes on.

use call_log::Log;
use guest_world::World;
use miniport_state::Adapters;
use owner_book::Book;
use run_course::Course;

/// What is kept of a run, and the entries so far.
#[derive(Drop)]
pub struct Running {
    pub adapters: Adapters,
    pub book: Book,
    pub world: World,
    pub log: Log,
    pub course: Course,
}
