//! Entries that are written while the world is the one behind the answer of a call.

ghost use Rattle.std.specs.Prelude.{◌≡◌, ◌<◌, Some, true};
ghost use Rattle.call_log.specs.declared.entry.Entry.TheVariants as entries;
ghost use Rattle.run_course.specs.Shown.{Shows};
ghost use Rattle.legal_run.specs.State.{State};
ghost use Rattle.legal_run.specs.After.{after, packet_driver};
ghost use Rattle.legal_run.specs.Must.{Exactly, must};
ghost use Rattle.miniport_state.specs.Seen.{Point};
ghost use Rattle.miniport.specs.Steps.{MayCall};
ghost use Rattle.run_moves.specs.Runs.{Grows, IsAnswering};
ghost use Rattle.call_log.specs.Lines.{InRange};
ghost use Rattle.run_calls.specs.Answering.{Continues, is_light, told_of};

use call_log::{Entry, Words};
use legal_run::run_laws;
use miniport::{call, write};
use miniport_state::Calling;
use nd_base::{Addr, BindingNo, CtxNo, PacketNo};
use owner_book::Book;
use run_course::Course;
use run_duties::each_duty_is_served;
use run_moves::Running;

/// A context calls an import, and the call stays open.
pub(crate) fn write_call(run: &mut Running, x: CtxNo, calling: Calling, words: Words)
    ghost o: { Point }
    requires run { IsAnswering o run.old }
    requires may { MayCall o x calling words }
    requires spare { 0 < run.old.log.spare }
    ensures { Continues o (entries.Call x calling.import words) run.old run.new }
{
    run_laws();
    call(
        &mut run.adapters,
        x,
        calling,
        words,
        &mut run.book,
        &mut run.log,
    );
}

/// A context waits for a lock that another one holds, as it must.
pub(crate) fn write_spin(run: &mut Running, x: CtxNo, lock: Addr)
    ghost o: { Point }
    requires run { IsAnswering o run.old }
    requires due { must o.state ≡ Some (Exactly (entries.Spin x lock)) }
    requires world { run.old.world ≡ (after o.inputs o.state (entries.Spin x lock)).world }
    requires spare { 0 < run.old.log.spare }
    ensures { Grows o (entries.Spin x lock) run.old run.new }
{
    each_duty_is_served();
    run_laws();
    write(
        &mut run.book,
        &mut run.log,
        Entry::Spin { context: x, lock },
    );
}

/// The driver of a packet.
fn packet_driver(book: &Book, packet: PacketNo) -> BindingNo
    ghost s: { State }
    requires { book.now ≡ s.owner }
    ensures { result.0 ≡ packet_driver s packet.0 }
{
    match book.packet(packet) {
        Some(row) => row.driver,
        None => BindingNo(0),
    }
}

/// What the course keeps of an entry that a call makes: the driver of a packet hears of its end.
fn tell(course: &mut Course, book: &Book, entry: &Entry)
    ghost s: { State }
    requires shown { Shows s course.old }
    requires owner { book.now ≡ s.owner }
    ensures { Shows (told_of s entry.now) course.new }
{
    match entry {
        Entry::Complete { packet, .. } => {
            let driver = packet_driver(book, *packet);
            course.speak(driver);
            course.expired = 0;
        }
        Entry::WireOut { .. } => course.expired = 0,
        _ => {}
    }
}

/// An entry that a call makes is written, as it must be.
pub(crate) fn write_light(run: &mut Running, entry: Entry)
    ghost o: { Point }
    requires run { IsAnswering o run.old }
    requires due { must o.state ≡ Some (Exactly entry) }
    requires light { is_light entry ≡ true }
    requires range { InRange entry }
    requires spare { 0 < run.old.log.spare }
    ensures { Continues o entry run.old run.new }
{
    each_duty_is_served();
    run_laws();
    tell(&mut run.course, &run.book, &entry);
    write(&mut run.book, &mut run.log, entry);
}
