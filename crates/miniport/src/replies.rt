//! Replies.

ghost use Rattle.std.specs.Prelude.{◌≡◌, ◌<◌, slice_index_or, slice_set};
ghost use Rattle.call_log.specs.declared.entry.Entry.TheVariants as entries;
ghost use Rattle.import_table.specs.Table.{row_of, seen};
ghost use Rattle.legal_run.specs.State.{State, no_context};
ghost use Rattle.legal_run.specs.After.{import_of, quiet_if_off, reaches, registered};
ghost use Rattle.miniport_state.specs.Seen.{Point, Keeps};
ghost use Rattle.miniport.specs.Steps.{IsBehind};
ghost use Rattle.miniport.specs.Replies.{MayReply, resumed};

use crate::charges::{charge, used};
use crate::contexts::{adapter_of, is_alive, registers_at};
use crate::steps::ran;
use crate::writing::write;
use adapter_timers::quiet;
use call_log::{Entry, Log};
use guest_code::returned;
use guest_world::{Reply, World};
use guest_writes::put_all;
use ia32_step::Regs;
use import_table::ImportRow;
use log_fields::Handler;
use miniport_state::{Adapters, Context, has_handler};
use nd_base::{AdapterNo, CtxNo};
use owner_book::Book;

/// Nothing of an adapter that is off is armed.
fn quiet_if_off(world: &mut World, book: &Book, adapter: Option<AdapterNo>)
    ghost s: { State }
    requires { book.now ≡ s.owner }
    ensures { world.new ≡ quiet_if_off s world.old adapter }
{
    if let Some(a) = adapter {
        if !is_alive(book, a) {
            quiet(world, a);
        }
    }
}

/// A context goes on behind its call.
fn resume(context: &mut Context, registers: Regs)
    ensures { context.new ≡ resumed registers context.old }
{
    context.registers = registers;
    context.call = None;
}

/// The context of this number does so.
fn resume_at(adapters: &mut Adapters, x: CtxNo, registers: Regs)
    requires { x.0 < 16 }
    ensures { adapters.new ≡ record adapters.old { contexts = slice_set adapters.old.contexts x.0 (resumed registers (slice_index_or adapters.old.contexts x.0 no_context)) } }
{
    resume(&mut adapters.contexts[usize::from(x.0)], registers);
}

/// Tells the book which handlers for cancels and events the miniport has.
fn tell_handlers(book: &mut Book, world: &World)
    ghost s: { State }
    requires { world.now ≡ s.world }
    ensures { book.new ≡ registered s book.old }
{
    let cancelsend = has_handler(world, Handler::CancelSend);
    let pnpevent = has_handler(world, Handler::PnpEvent);
    book.handlers(cancelsend, pnpevent);
}

/// Writes the reply of a context's open call, makes its writes, charges it, and lets the context go on
/// behind the call. The world is the one that the call's import left. Answers whether the budget is
/// reached.
pub fn reply(
    adapters: &mut Adapters,
    x: CtxNo,
    row: &ImportRow,
    reply: Reply,
    book: &mut Book,
    world: &mut World,
    log: &mut Log,
) -> bool
    ghost o: { Point }
    requires keeps { Keeps o.inputs o.state adapters.old }
    requires owner { book.old ≡ o.state.owner }
    requires row { seen row.now ≡ row_of (import_of o.state x) }
    requires may { MayReply o x reply world.old }
    requires spare { 0 < log.old.spare }
    ensures step { IsBehind o (entries.Reply x reply.eax reply.writes) adapters.new book.new world.new log.old log.new }
    ensures spent { result ≡ reaches o.inputs o.state x reply.cost }
{
    let Reply {
        eax,
        writes,
        cost,
        ..
    } = reply;
    let adapter = adapter_of(book, x);
    let before = used(adapters, adapter);
    let registers = returned(&world.memory, &registers_at(adapters, x), row, eax);
    put_all(&mut world.memory, &writes);
    quiet_if_off(world, book, adapter);
    resume_at(adapters, x, registers);
    let entry = Entry::Reply {
        context: x,
        eax,
        writes,
    };
    write(book, log, entry);
    tell_handlers(book, world);
    charge(adapters, adapter, cost);
    world.clock.rise(cost);
    ran(adapters, x);
    u64::from(adapters.budget) <= before + cost
}
