//! Leaves.

ghost use Rattle.std.specs.Prelude.{◌≡◌, ◌<◌, slice_get};
ghost use Rattle.std.specs.Option.{option_map};
ghost use Rattle.irql_lock.specs.LockState.{IsOpen};
ghost use Rattle.legal_run.specs.State.{adapter_in};
ghost use Rattle.legal_run.specs.After.{number_in};
ghost use Rattle.legal_run.specs.Calls.{leaves_even};
ghost use Rattle.miniport_state.specs.Seen.{IsAt, Keeps, Point};
ghost use Rattle.handler_leaves.specs.Leaves.{IsVerdict, Leaves, MayLeave, first_broken};

use crate::answers::handler_of;
use crate::rows::{Left, settle};
use call_log::{Entry, Handler, Log};
use guest_world::World;
use miniport::{adapter_of, free_entries_stand, registers_at, write};
use miniport_state::Adapters;
use nd_base::{AdapterNo, Breach, CtxNo};
use owner_book::Book;

/// The number of the register that a status is returned in.
const EAX: usize = 0;

/// A handler that leaves with a lock held or at another level than it began at.
const LEAVE_RULE: Breach = Breach(7);

/// The number of a context's adapter; that behind the last one of DriverEntry.
fn number_of(adapters: &Adapters, book: &Book, x: CtxNo) -> AdapterNo
    ghost o: { Point }
    requires { Keeps o.inputs o.state adapters.now }
    ensures { result.0 ≡ number_in o.inputs (adapter_in (slice_get book.now.contexts x.0)) }
{
    match adapter_of(book, x) {
        Some(a) => a,
        None => AdapterNo(adapters.charges.len() as u8),
    }
}

/// The rule that a leave breaks: that of levels and locks first, and then what other subjects say.
fn broken(world: &World, x: CtxNo, verdict: Option<Breach>) -> Option<Breach>
    ghost o: { Point }
    requires world { world.now ≡ o.state.world }
    requires open { IsOpen world.now.levels x }
    ensures { option_map (λ b. b.0) result ≡ first_broken (leaves_even o.state x) (option_map (λ b. b.0) verdict) }
{
    if !world.levels.may_leave(x) {
        return Some(LEAVE_RULE);
    }
    verdict
}

/// Writes that the handler of a context returned, and takes and sets what it does then. Where that
/// breaks a rule nothing else has changed. What other subjects say of the leave is given: the rule that
/// its verdicts on packets and requests, its status or its attributes break.
///
/// # Errors
/// The rule that it breaks, of levels and locks first.
pub fn leave(
    adapters: &mut Adapters,
    x: CtxNo,
    verdict: Option<Breach>,
    book: &mut Book,
    world: &mut World,
    log: &mut Log,
) -> Result<(Handler, u32), Breach>
    ghost o: { Point }
    requires at { IsAt o adapters.old book.old world.old }
    requires may { MayLeave o x }
    requires verdict { IsVerdict o.inputs o.state x verdict }
    requires spare { 0 < log.old.spare }
    ensures { Leaves o x adapters.new book.new world.new log.old log.new result }
{
    free_entries_stand();
    let eax = registers_at(adapters, x).general[EAX];
    let left = Left {
        context: x,
        adapter: number_of(adapters, book, x),
        handler: handler_of(book, x),
        eax,
    };
    let entry = Entry::Leave { context: x, eax };
    match broken(world, x, verdict) {
        Some(rule) => {
            book.say_nothing();
            log.append(entry);
            Err(rule)
        }
        None => {
            write(book, log, entry);
            settle(adapters, left, world);
            let _ = world.levels.leave(x);
            Ok((left.handler, eax))
        }
    }
}
