//! What is kept of a run.

ghost use Rattle.std.specs.Prelude.{◌≡◌, IfSome, length};
ghost use Rattle.run_rests_tests.specs.Settled.{IsSettled};

use call_log::{Log, read_log};
use frame_wire::Arrival;
use guest_world::World;
use miniport_state::{Adapters, Entrance};
use nd_base::{AdapterNo, Addr, BindingNo, Layout};
use nd_mem::Memory;
use owner_book::Book;
use run_course::Course;
use run_rests::{Due, comes_next};
use std::alloc::Global;

/// Both adapters run, the driver is bound; the second adapter has halted.
pub const RUNNING: &[u8] = b"\
enter - 0 driverentry e0000000,e0000008 -\n\
leave 0 00000000\n\
enter 0 0 initialize - -\n\
leave 0 00000000\n\
enter 1 0 initialize - -\n\
leave 0 00000000\n\
bind 0 0\n\
enter 1 0 halt - -\n\
leave 0 00000000\n";

/// A packet was sent, and the miniport holds it.
pub const HANDED: &[u8] = b"\
send 0 0 ffffffffffff0000000000010800\n\
enter 0 0 send 00000000,80000000,00000000 -\n\
hand 0\n\
leave 0 00000103\n";

/// Two adapters before the first entry.
pub fn new_adapters(alloc: Global) -> Option<Adapters>
    ensures { IfSome result IsSettled }
{
    Adapters::new(alloc, 2, [18, 18, 0, 0], 1000, Addr(0x8010_0000), false).ok()
}

/// DriverEntry has left with success.
pub fn succeed(adapters: &mut Adapters)
    requires { IsSettled adapters.old }
    ensures { IsSettled adapters.new }
{
    adapters.entrance = Entrance::Gone(0);
}

/// A world with its clock at 0, and no timer.
pub fn new_world(alloc: Global) -> Option<World> {
    World::new(alloc, Layout::usual(), Memory::new(alloc)).ok()
}

/// Whether a book takes each entry of a log.
fn takes_all(book: &mut Book, log: &Log) -> bool {
    for i in 0..log.len() {
        if let Some(e) = log.entry(i) {
            if book.admit(e).is_err() {
                return false;
            }
        }
    }
    true
}

/// A book of two adapters, and of a driver of the first, before the first entry.
pub fn new_book(alloc: Global) -> Option<Book> {
    Book::new(alloc, 2, &[AdapterNo(0)]).ok()
}

/// Whether a book takes these entries.
pub fn takes(alloc: Global, book: &mut Book, text: &[u8]) -> bool {
    match read_log(alloc, text) {
        Ok(log) => takes_all(book, &log),
        Err(_) => false,
    }
}

/// What is kept of a run, but for its adapters.
#[derive(Drop)]
pub struct Kept {
    pub book: Book,
    pub world: World,
    pub course: Course,
}

/// What comes next, where the book has one driver, whoever asks.
pub fn chosen(
    adapters: &Adapters,
    kept: &Kept,
    frames: &[Arrival],
    who: Option<BindingNo>,
) -> Option<Due>
    requires { IsSettled adapters.now }
{
    if kept.book.drivers() != 1 {
        return None;
    }
    Some(comes_next(adapters, &kept.book, &kept.world, frames, &kept.course, who))
}
