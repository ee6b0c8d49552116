//! Verdicts by handler.

ghost use Rattle.std.specs.Prelude.{◌≡◌, ◌<◌, true, IfOk, slice_get};
ghost use Rattle.import_answers.specs.World.{IsNumber};
ghost use Rattle.legal_run.specs.State.{State, adapter_of, context_at, handler_in, handler_of};
ghost use Rattle.legal_run.specs.Calls.{drawn, drawn_from};
ghost use Rattle.legal_run.specs.VerdictLaws.{is_send};
ghost use Rattle.miniport_state.specs.Seen.{IsAt, Point};
ghost use Rattle.handler_leaves.specs.Leaves.{status_of};
ghost use Rattle.leave_verdicts.specs.Judged.{CanJudge, CanJudgeOf, drawn_as};

use crate::judgement::{Judgement, nothing};
use crate::packets::{Judging, packet_verdicts};
use crate::requests::request_verdict;
use crate::resets::reset_verdict;
use crate::starts::{entry_verdict, initialize_verdict};
use call_log::Handler;
use guest_world::World;
use miniport::{adapter_of, registers_at};
use miniport_state::Adapters;
use nd_base::{AdapterNo, CtxNo, OutOfMemory};
use owner_book::Book;
use owner_machine::Context;
use run_course::Frame;
use std::alloc::Global;
use verdict_parts::is_serialized;

/// The number of the register that a status is returned in.
const EAX: usize = 0;

/// The handler that is open in a context; DriverEntry where none is.
fn handler_of(book: &Book, x: CtxNo) -> Handler
    ensures { result ≡ handler_in (slice_get book.now.contexts x.0) }
{
    match book.context(x) {
        Some(Context::Open { handler, .. }) => handler,
        _ => Handler::DriverEntry,
    }
}

/// What is drawn where MiniportSend or MiniportSendPackets leaves with a status: by that status, or by
/// those of its packets. One that is not serialized ends an array's packets by calls alone.
fn send_verdicts(
    alloc: Global,
    book: &Book,
    world: &World,
    frames: &[Frame],
    a: AdapterNo,
    eax: u32,
    packets: &[u64],
    h: Handler,
) -> Result<Judgement, OutOfMemory>
    ghost s: { State }
    requires owner { book.now ≡ s.owner }
    requires world { world.now ≡ s.world }
    requires frames { frames.now ≡ s.packets }
    requires sends { is_send h ≡ true }
    requires readable { CanJudge s a.0 packets.now h }
    ensures { IfOk result (λ j. drawn_as j ≡ drawn_from s a.0 eax packets.now h) }
{
    let serial = is_serialized(book, a);
    match h {
        Handler::Send => {
            let by = Judging::ByReturn(eax);
            packet_verdicts(alloc, book, world, frames, by, serial, packets)
        }
        _ if serial => {
            packet_verdicts(
                alloc,
                book,
                world,
                frames,
                Judging::InPlace,
                serial,
                packets,
            )
        }
        _ => Ok(nothing(alloc)),
    }
}

/// What is drawn where a handler of an adapter leaves with a status.
fn drawn_from(
    alloc: Global,
    book: &Book,
    world: &World,
    frames: &[Frame],
    a: AdapterNo,
    eax: u32,
    subject: &[u64],
    h: Handler,
) -> Result<Judgement, OutOfMemory>
    ghost s: { State }
    requires owner { book.now ≡ s.owner }
    requires world { world.now ≡ s.world }
    requires frames { frames.now ≡ s.packets }
    requires number { a.0 < 4 }
    requires readable { CanJudge s a.0 subject.now h }
    ensures { IfOk result (λ j. drawn_as j ≡ drawn_from s a.0 eax subject.now h) }
{
    match h {
        Handler::Send | Handler::SendPackets => {
            send_verdicts(alloc, book, world, frames, a, eax, subject, h)
        }
        Handler::Query | Handler::Set => request_verdict(alloc, book, world, a, eax, subject),
        Handler::Reset => reset_verdict(alloc, book, a, eax),
        Handler::Initialize => Ok(initialize_verdict(alloc, world, a, eax)),
        _ => Ok(nothing(alloc)),
    }
}

/// What is drawn where the handler of a context leaves: the rule that it breaks, beside that of levels
/// and locks, or the entries that stand directly behind the leave.
///
/// # Errors
/// [`OutOfMemory`] where no memory is left.
pub fn judge(
    alloc: Global,
    adapters: &Adapters,
    book: &Book,
    world: &World,
    frames: &[Frame],
    x: CtxNo,
) -> Result<Judgement, OutOfMemory>
    ghost o: { Point }
    requires at { IsAt o adapters.now book.now world.now }
    requires frames { frames.now ≡ o.state.packets }
    requires number { x.0 < 16 }
    requires adapter { IsNumber (adapter_of o.state x.0) }
    requires readable { CanJudgeOf o.state (adapter_of o.state x.0) (context_at o.state x.0).subject (handler_of o.state x.0) }
    ensures { IfOk result (λ j. drawn_as j
        ≡ drawn o.inputs o.state (adapter_of o.state x.0) (status_of o.state x) (context_at o.state x.0).subject (handler_of o.state x.0)) }
{
    let eax = registers_at(adapters, x).general[EAX];
    let h = handler_of(book, x);
    match adapter_of(book, x) {
        Some(a) => {
            let context = &adapters.contexts[usize::from(x.0)];
            drawn_from(alloc, book, world, frames, a, eax, &context.subject, h)
        }
        None => Ok(entry_verdict(alloc, world, adapters.charges.len(), eax)),
    }
}
