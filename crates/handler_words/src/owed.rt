//! An owed handler with what it is entered with.

ghost use Rattle.std.specs.Prelude.{◌≡◌, ◌≤◌, ◌<◌, ◌==◌, true, false, not, count_by, length, IfOk, Some};
ghost use Rattle.log_fields.specs.declared.field_values.Handler.TheVariants as handler;
ghost use Rattle.owner_machine.specs.Loans.{due_of};
ghost use Rattle.legal_run.specs.State.{is_free};
ghost use Rattle.legal_run.specs.Owed.{frame_due, hands_set, is_owed, to_hand};
ghost use Rattle.miniport_state.specs.Seen.{IsAt, Point};
ghost use Rattle.handler_words.specs.Asked.{asking_handler};
ghost use Rattle.handler_words.specs.Ready.{IsReadyIf, IsReadyOr};

use crate::enterings::entering;
use crate::homes::loan_home;
use crate::requests::{entering_asked, entering_return, to_hand};
use guest_world::World;
use handler_entries::Entering;
use log_fields::Handler;
use miniport_state::Adapters;
use nd_base::{AdapterNo, CtxNo, OutOfMemory};
use owner_book::Book;
use std::alloc::Global;

/// The handler of the request that an adapter is to be handed, if there is one, and it is of that kind:
/// a set, or a query.
#[tactic(auto, using(crate::proofs::Dues::no_request, crate::proofs::Dues::ready_asked))]
fn entering_request(
    alloc: Global,
    book: &Book,
    world: &World,
    a: AdapterNo,
    x: CtxNo,
    set: bool,
) -> Result<Option<Entering>, OutOfMemory>
    ghost o: { Point }
    requires owner { book.now ≡ o.state.owner }
    requires world { world.now ≡ o.state.world }
    requires adapter { a.0 < 4 }
    requires drivers { length book.now.drivers ≤ 256 }
    requires free { is_free o.state x.0 ≡ true }
    requires frames { frame_due o.inputs o.state ≡ false }
    ensures { IfOk result (IsReadyIf (hands_set set (to_hand o.state a.0)) o (Some a) x (asking_handler set)) }
{
    let Some(asked) = to_hand(alloc, book, a)? else {
        return Ok(None);
    };
    let entering = entering_asked(alloc, world, a, x, &asked)?;
    Ok(Some(entering))
}

/// MiniportReturnPacket for the first loan of an adapter that is due, if one is.
#[tactic(auto, using(crate::proofs::Dues::no_loan, crate::proofs::Dues::ready_home))]
fn entering_home(
    alloc: Global,
    book: &Book,
    world: &World,
    lent: &[u32],
    a: AdapterNo,
    x: CtxNo,
) -> Result<Option<Entering>, OutOfMemory>
    ghost o: { Point }
    requires owner { book.now ≡ o.state.owner }
    requires world { world.now ≡ o.state.world }
    requires lent { lent.now ≡ o.state.lent }
    requires free { is_free o.state x.0 ≡ true }
    requires frames { frame_due o.inputs o.state ≡ false }
    ensures { IfOk result (IsReadyIf (not (count_by (due_of a.0) o.state.owner.loans == 0)) o (Some a) x handler.ReturnPacket) }
{
    let Some(descriptor) = loan_home(book, lent, a) else {
        return Ok(None);
    };
    let entering = entering_return(alloc, world, a, x, descriptor)?;
    Ok(Some(entering))
}

/// A handler that an adapter owes, and that is to be entered in a free context; none of one that sends
/// packets. The descriptors that were lent are given by a loan's number.
///
/// # Errors
/// [`OutOfMemory`] where no memory is left, or a word can't tell the length of what is written.
#[tactic(auto, using(crate::proofs::Dues::query_ready, crate::proofs::Dues::set_ready, crate::proofs::Dues::home_ready))]
pub fn entering_owed(
    alloc: Global,
    adapters: &Adapters,
    book: &Book,
    world: &World,
    lent: &[u32],
    a: AdapterNo,
    x: CtxNo,
    h: Handler,
) -> Result<Option<Entering>, OutOfMemory>
    ghost o: { Point }
    requires at { IsAt o adapters.now book.now world.now }
    requires lent { lent.now ≡ o.state.lent }
    requires adapter { a.0 < 4 }
    requires drivers { length book.now.drivers ≤ 256 }
    requires context { x.0 < 16 }
    requires free { is_free o.state x.0 ≡ true }
    requires frames { frame_due o.inputs o.state ≡ false }
    requires owed { is_owed o.inputs o.state a.0 h ≡ true }
    ensures { IfOk result (IsReadyOr o a x h) }
{
    match h {
        Handler::Query => entering_request(alloc, book, world, a, x, false),
        Handler::Set => entering_request(alloc, book, world, a, x, true),
        Handler::ReturnPacket => entering_home(alloc, book, world, lent, a, x),
        Handler::Send | Handler::SendPackets => Ok(None),
        _ => {
            let entering = entering(alloc, adapters, book, world, Some(a), x, h)?;
            Ok(Some(entering))
        }
    }
}
