//! Enters.

ghost use Rattle.std.specs.Prelude.{◌≡◌, ◌<◌, slice_set};
ghost use Rattle.legal_run.specs.After.{number_in};
ghost use Rattle.miniport_state.specs.Seen.{IsAt, Keeps, Point};
ghost use Rattle.handler_entries.specs.Entries.{Enters, HasFewWords, MayEnter, begun_by, begun_memory};

use crate::places::{address_of, due_of, level_of};
use crate::stacks::{begin_registers, begin_stack, stack_pointer};
use crate::takes::take;
use call_log::{Entry, Handler, Log};
use guest_world::World;
use ia32_step::Regs;
use log_fields::{Words, Writes};
use miniport::ran;
use miniport_state::{Adapters, Context};
use nd_base::{AdapterNo, CtxNo, OutOfMemory};
use nd_mem::Memory;
use owner_book::{Book, Refusal};

/// A handler that is to be entered.
#[derive(Drop)]
pub struct Entering {
    /// Its adapter; none of DriverEntry.
    pub adapter: Option<AdapterNo>,
    pub handler: Handler,
    /// Its argument words.
    pub words: Words,
    /// What is written beside its stack.
    pub writes: Writes,
    /// What it is entered for: packets, a request, the context that called for it.
    pub subject: Vec<u64>,
}

/// The number of an entry's adapter; that behind the last one of DriverEntry.
fn number_of(adapters: &Adapters, adapter: Option<AdapterNo>) -> AdapterNo
    ghost o: { Point }
    requires { Keeps o.inputs o.state adapters.now }
    ensures { result.0 ≡ number_in o.inputs adapter }
{
    match adapter {
        Some(a) => a,
        None => AdapterNo(adapters.charges.len() as u8),
    }
}

/// Puts the stack of the handler that an entry enters, and what is written beside it.
fn begin_memory(memory: &mut Memory, x: CtxNo, entry: &Entry)
    requires number { x.0 < 16 }
    requires few { HasFewWords entry.now }
    ensures { memory.new ≡ begun_memory memory.old x.0 entry.now }
{
    if let Entry::Enter { words, writes, .. } = entry {
        begin_stack(memory, x, words.as_slice(), writes);
    }
}

/// A context begins with these registers.
fn begin(context: &mut Context, registers: Regs, subject: Vec<u64>)
    ensures { context.new ≡ begun_by registers subject.items }
{
    context.registers = registers;
    context.subject = subject;
    context.call = None;
}

/// The context of this number does so.
fn begin_at(adapters: &mut Adapters, x: CtxNo, registers: Regs, subject: Vec<u64>)
    requires { x.0 < 16 }
    ensures { adapters.new ≡ record adapters.old { contexts = slice_set adapters.old.contexts x.0 (begun_by registers subject.items) } }
{
    begin(&mut adapters.contexts[usize::from(x.0)], registers, subject);
}

/// Enters a handler that is owed in a free context: writes its `enter`, and lets it begin with its
/// level, its stack and its words.
///
/// # Errors
/// [`OutOfMemory`] where the book wants memory; nothing has changed then.
pub fn enter(
    adapters: &mut Adapters,
    x: CtxNo,
    entering: Entering,
    book: &mut Book,
    world: &mut World,
    log: &mut Log,
) -> Result<(), OutOfMemory>
    ghost o: { Point }
    requires at { IsAt o adapters.old book.old world.old }
    requires may { MayEnter o x entering }
    requires spare { 0 < log.old.spare }
    ensures { Enters o x entering adapters.new book.new world.new log.old log.new result }
{
    let Entering {
        adapter,
        handler,
        words,
        writes,
        subject,
    } = entering;
    let a = number_of(adapters, adapter);
    let due = due_of(adapters, book, world, a);
    let address = address_of(adapters, world, a, handler, due);
    let level = level_of(&adapters.lines, a, handler);
    let registers = begin_registers(stack_pointer(x, words.as_slice()), address);
    let entry = Entry::Enter {
        adapter,
        context: x,
        handler,
        words,
        writes,
    };
    match book.admit(&entry) {
        Ok(()) => {}
        Err(Refusal::OutOfMemory) => return Err(OutOfMemory),
        Err(Refusal::Broken(_)) => unreachable!(),
    }
    take(adapters, world, a, handler, due);
    world.levels.begin(x, level);
    begin_memory(&mut world.memory, x, &entry);
    begin_at(adapters, x, registers, subject);
    ran(adapters, x);
    log.append(entry);
    Ok(())
}
