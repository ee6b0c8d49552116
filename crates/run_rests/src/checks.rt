//! When adapters are checked for hangs.

ghost use Rattle.std.specs.Prelude.{◌≡◌, nat_lt, filter};
ghost use Rattle.legal_run.specs.State.{clock};
ghost use Rattle.legal_run.specs.Owed.{check_of, checks, least};
ghost use Rattle.miniport_state.specs.Seen.{Point, IsAt, Keeps};

use crate::moments::{earlier, to_come};
use crate::phases::is_running;
use call_log::Handler;
use guest_world::World;
use miniport_state::{Adapters, has_handler};
use nd_base::AdapterNo;
use owner_book::Book;

/// The moment of an adapter's next hang check, where it runs.
fn check_of(adapters: &Adapters, a: AdapterNo, book: &Book) -> Option<u64>
    ghost o: { Point }
    requires keeps { Keeps o.inputs o.state adapters.now }
    requires owner { book.now ≡ o.state.owner }
    ensures { result ≡ check_of o.state a.0 }
{
    if !is_running(book, a) {
        return None;
    }
    match adapters.progress.get(usize::from(a.0)) {
        Some(progress) => Some(progress.check),
        None => Some(0),
    }
}

/// The earliest moment above the clock of a hang check of an adapter that runs, where the miniport has
/// a MiniportCheckForHang.
pub(crate) fn next_check(adapters: &Adapters, book: &Book, world: &World) -> Option<u64>
    ghost o: { Point }
    requires { IsAt o adapters.now book.now world.now }
    ensures { result ≡ least (filter (λ m. nat_lt (clock o.state) m) (checks o.inputs o.state)) }
{
    let now = world.clock.now();
    let mut first = None;
    if !has_handler(world, Handler::CheckForHang) {
        return first;
    }
    for n in 0..adapters.charges.len() as u8 {
        first = earlier(first, to_come(now, check_of(adapters, AdapterNo(n), book)));
    }
    first
}
