//! Steps of a context: turns, calls and faults.

ghost use Rattle.std.specs.Prelude.{◌≡◌, ◌<◌, ◌+◌, ◌^◌, true, Some};
ghost use Rattle.call_log.specs.declared.entry.Entry.TheVariants as entries;
ghost use Rattle.ia32_step.specs.Machine.{outcome};
ghost use Rattle.legal_run.specs.After.{after, machine_of};
ghost use Rattle.legal_run.specs.Run.{faults_as};
ghost use Rattle.miniport_state.specs.Seen.{Point, IsAt, Keeps};
ghost use Rattle.miniport.specs.Steps.{Goes, IsWritten, Makes, MakesIn, MayCall, MayTurn, Turns};

use crate::charges::{charge, used};
use crate::contexts::adapter_of;
use crate::writing::write;
use call_log::{Entry, FaultKind, Log, Words};
use guest_code::{Turned, make_turn};
use guest_world::World;
use ia32_step::Stepped;
use legal_run::code_laws;
use miniport_state::{Adapters, Calling, Context};
use nd_base::{Addr, CtxNo};
use nd_mem::Memory;
use owner_book::Book;

/// A turn ends at this many instructions.
const TURN_LENGTH: u64 = 64;

/// A context makes at most so many instructions.
fn make(context: &mut Context, memory: &mut Memory, most: u8) -> Turned
    ensures { Makes context.old memory.old context.new memory.new most result }
{
    make_turn(&mut context.registers, memory, most)
}

/// The context of this number makes at most so many instructions.
fn go(adapters: &mut Adapters, x: CtxNo, memory: &mut Memory, most: u8) -> Turned
    requires { x.0 < 16 }
    ensures { MakesIn x.0 adapters.old memory.old adapters.new memory.new most result }
{
    make(&mut adapters.contexts[usize::from(x.0)], memory, most)
}

/// Makes a turn of a context, and writes it where it made an instruction. Answers what a step would
/// answer behind it (`Went` where that is not known), or nothing where the budget is reached.
pub fn turn(
    adapters: &mut Adapters,
    x: CtxNo,
    book: &mut Book,
    world: &mut World,
    log: &mut Log,
) -> Option<Stepped>
    ghost o: { Point }
    requires at { IsAt o adapters.old book.old world.old }
    requires may { MayTurn o x }
    requires time { world.old.clock.clock + 64 < 2 ^ 64 }
    requires spare { 0 < log.old.spare }
    ensures { Turns o x adapters.new book.new world.new log.old log.new result }
{
    code_laws();
    let adapter = adapter_of(book, x);
    let before = used(adapters, adapter);
    let most = (u64::from(adapters.budget) - before).min(TURN_LENGTH) as u8;
    let turned = go(adapters, x, &mut world.memory, most);
    if turned.count == 0 {
        return Some(turned.last);
    }
    let count = u64::from(turned.count);
    write(book, log, Entry::Turn { context: x, count });
    charge(adapters, adapter, count);
    world.clock.rise(count);
    ran(adapters, x);
    if u64::from(adapters.budget) <= before + count {
        return None;
    }
    Some(turned.last)
}

/// A context has run just now.
pub fn ran(adapters: &mut Adapters, x: CtxNo)
    ensures { adapters.new ≡ record adapters.old { ran = adapters.new.ran; runs = adapters.new.runs } }
{
    let place = usize::from(x.0);
    if place < adapters.ran.len() {
        adapters.runs = adapters.runs.saturating_add(1);
        adapters.ran[place] = adapters.runs;
    }
}

/// Writes that the next instruction of a context has no result.
pub fn fault(x: CtxNo, kind: FaultKind, address: Addr, book: &mut Book, log: &mut Log)
    ghost o: { Point }
    requires owner { book.old ≡ o.state.owner }
    requires goes { Goes o x }
    requires faults { faults_as (outcome (machine_of o.state x)) kind address.0 ≡ true }
    requires spare { 0 < log.old.spare }
    ensures { IsWritten o (entries.Fault x kind address) book.new log.old log.new }
{
    let entry = Entry::Fault {
        context: x,
        kind,
        address,
    };
    write(book, log, entry);
}

/// A context keeps its open call.
fn keep_call(context: &mut Context, calling: Calling)
    ensures { context.new ≡ record context.old { call = Some calling } }
{
    context.call = Some(calling);
}

/// Writes the call of an import at whose slot the context is, and keeps it open.
pub fn call(
    adapters: &mut Adapters,
    x: CtxNo,
    calling: Calling,
    words: Words,
    book: &mut Book,
    log: &mut Log,
)
    ghost o: { Point }
    requires keeps { Keeps o.inputs o.state adapters.old }
    requires owner { book.old ≡ o.state.owner }
    requires may { MayCall o x calling words }
    requires spare { 0 < log.old.spare }
    ensures written { IsWritten o (entries.Call x calling.import words) book.new log.old log.new }
    ensures keeps { Keeps o.inputs (after o.inputs o.state (entries.Call x calling.import words)) adapters.new }
{
    let entry = Entry::Call {
        context: x,
        import: calling.import,
        words,
    };
    write(book, log, entry);
    keep_call(&mut adapters.contexts[usize::from(x.0)], calling);
}
