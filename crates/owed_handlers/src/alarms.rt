//! The next moment of a timer.

ghost use Rattle.std.specs.Prelude.{◌≡◌, ◌<◌, ◌&&◌, ℕ, false, nat_lt, length, filter, slice_index_or};
ghost use Rattle.owner_machine.specs.State.{phase_is};
ghost use Rattle.legal_run.specs.State.{clock, is_alive};
ghost use Rattle.legal_run.specs.Owed.{alarms, least};
ghost use Rattle.miniport_state.specs.Seen.{Point, IsAt};

use crate::standings::is_alive;
use guest_world::World;
use miniport_state::Adapters;
use nd_base::AdapterNo;
use owner_book::Book;

/// How many numbers of adapters there are.
const NUMBERS: usize = 256;

/// An adapter is there, and neither off nor stopped.
fn lives(book: &Book, a: AdapterNo) -> bool
    ensures { result ≡ phase_is is_alive book.now a.0 }
{
    usize::from(a.0) < book.adapters() && is_alive(book.standing(a).phase)
}

/// By number, of so many adapters, whether one is there, and neither off nor stopped.
fn living(book: &Book, count: usize) -> [bool; NUMBERS]
    requires { count < 256 }
    ensures { (a : ℕ) → slice_index_or result a false ≡ (nat_lt a count && phase_is is_alive book.now a) }
{
    let mut living = [false; NUMBERS];
    for n in 0..count {
        living[n] = lives(book, AdapterNo(n as u8));
    }
    living
}

/// The earliest moment above the clock for which a timer is armed of an adapter that is neither off
/// nor stopped.
pub fn next_alarm(adapters: &Adapters, book: &Book, world: &World) -> Option<u64>
    ghost o: { Point }
    requires { IsAt o adapters.now book.now world.now }
    ensures { result ≡ least (filter (λ m. nat_lt (clock o.state) m) (alarms o.inputs o.state)) }
{
    let living = living(book, adapters.charges.len());
    adapter_timers::next_alarm(world, &living)
}
