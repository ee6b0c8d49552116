//! What is kept of a run.

ghost use Rattle.std.specs.Prelude.{IfSome};
ghost use Rattle.owed_handlers_tests.specs.Settled.{IsSettled};

use call_log::{Log, read_log};
use guest_world::{TimerFunction, World};
use miniport_state::{Adapters, Entrance};
use nd_base::{AdapterNo, Addr, Layout};
use nd_mem::Memory;
use owed_handlers::{Owed, next_owed};
use owner_book::Book;
use std::alloc::Global;

/// Both adapters run.
const RUNNING: &[u8] = b"\
enter - 0 driverentry e0000000,e0000008 -\n\
leave 0 00000000\n\
enter 0 0 initialize - -\n\
leave 0 00000000\n\
enter 1 0 initialize - -\n\
leave 0 00000000\n";

/// Two adapters before the first entry.
pub fn new_adapters(alloc: Global) -> Option<Adapters>
    ensures { IfSome result IsSettled }
{
    Adapters::new(alloc, 2, [18, 18, 0, 0], 1000, Addr(0x8010_0000), false).ok()
}

/// DriverEntry has left with success.
pub fn succeed(adapters: &mut Adapters)
    requires { IsSettled adapters.old }
    ensures { IsSettled adapters.new }
{
    adapters.entrance = Entrance::Gone(0);
}

/// A world with its clock at 0, and no timer.
pub fn new_world(alloc: Global) -> Option<World> {
    World::new(alloc, Layout::usual(), Memory::new(alloc)).ok()
}

/// Whether a book takes each entry of a log.
fn takes_all(book: &mut Book, log: &Log) -> bool {
    for i in 0..log.len() {
        if let Some(e) = log.entry(i) {
            if book.admit(e).is_err() {
                return false;
            }
        }
    }
    true
}

/// A book of two adapters before the first entry.
pub fn new_book(alloc: Global) -> Option<Book> {
    Book::new(alloc, 2, &[]).ok()
}

/// Whether a book takes what makes both adapters run.
pub fn runs(alloc: Global, book: &mut Book) -> bool {
    match read_log(alloc, RUNNING) {
        Ok(log) => takes_all(book, &log),
        Err(_) => false,
    }
}

/// A timer of an adapter is due.
pub fn arms(world: &mut World, timer: u32, a: u8) -> bool {
    let function = TimerFunction {
        adapter: AdapterNo(a),
        function: 0x8010_1000,
        context: 0,
    };
    world.timers.set(Addr(timer), function).is_ok()
        && world.clock.set_timer(Addr(timer), 0, 0).is_ok()
}

/// The handler that comes first.
pub fn chosen(adapters: &Adapters, book: &Book, world: &World) -> Option<Owed>
    requires { IsSettled adapters.now }
{
    next_owed(adapters, book, world)
}
