//! Entries of protocol drivers for which something is kept that takes memory.

ghost use Rattle.std.specs.Prelude.{◌≡◌, ◌≢◌, ◌<◌, true, [], None, OnOk, OnErr};
ghost use Rattle.std.specs.Option.{option_map};
ghost use Rattle.call_log.specs.declared.entry.Entry.TheVariants as entries;
ghost use Rattle.owner_machine.specs.Machine.{after, has_case, rule_against};
ghost use Rattle.legal_run.specs.Must.{must};
ghost use Rattle.legal_run.specs.Run.{Meets};
ghost use Rattle.miniport_state.specs.Seen.{Point};
ghost use Rattle.run_moves.specs.Runs.{Grows, IsRun};
ghost use Rattle.owner_rules.specs.Duties.{due_as};
ghost use Rattle.run_commands.specs.Commands.{GrowsOr, status_due};

use call_log::{Entry, Question};
use legal_run::run_laws;
use miniport::{free_entries_stand, write};
use nd_base::{BindingNo, Bytes, LoanNo, OutOfMemory, PacketNo, RequestNo, Status};
use owner_book::{Book, Duty, Refusal};
use run_course::Frame;
use run_moves::Running;
use std::alloc::Global;

/// Takes an entry that breaks no rule into the book.
fn take(book: &mut Book, entry: &Entry) -> Result<(), OutOfMemory>
    requires { rule_against book.old entry.now ≡ None }
    ensures ok { OnOk result (book.new ≡ after book.old entry.now) }
    ensures err { OnErr result (book.new ≡ book.old) }
{
    match book.admit(entry) {
        Ok(()) => Ok(()),
        Err(Refusal::OutOfMemory) => Err(OutOfMemory),
        Err(Refusal::Broken(_)) => unreachable!(),
    }
}

/// The status with which a packet or a request must end.
pub(crate) fn status_due(duty: Option<Duty>) -> Option<u32>
    ensures { result ≡ status_due (option_map due_as duty) }
{
    match duty {
        Some(Duty::Completes { status, .. }) | Some(Duty::Answers { status, .. }) => Some(status),
        _ => None,
    }
}

/// A driver asks a question of its adapter.
///
/// # Errors
/// [`OutOfMemory`] where the book wants memory; nothing has changed then.
pub(crate) fn write_ask(
    run: &mut Running,
    driver: BindingNo,
    request: RequestNo,
    question: Question,
) -> Result<(), OutOfMemory>
    ghost o: { Point }
    requires run { IsRun o run.old }
    requires free { must o.state ≡ None }
    requires case { has_case o.state.owner (entries.Ask driver request question) ≡ true }
    requires spare { 0 < run.old.log.spare }
    ensures { GrowsOr o (entries.Ask driver request question) run.old run.new result }
{
    free_entries_stand();
    run_laws();
    let entry = Entry::Ask {
        driver,
        request,
        question,
    };
    take(&mut run.book, &entry)?;
    run.log.append(entry);
    run.course.speak(driver);
    run.course.expired = 0;
    Ok(())
}

/// A driver sends a packet of these bytes.
///
/// # Errors
/// [`OutOfMemory`] where the book or the course wants memory; nothing has changed then.
pub(crate) fn write_send(
    run: &mut Running,
    alloc: Global,
    driver: BindingNo,
    packet: PacketNo,
    bytes: Bytes,
) -> Result<(), OutOfMemory>
    ghost o: { Point }
    requires run { IsRun o run.old }
    requires free { must o.state ≡ None }
    requires case { has_case o.state.owner (entries.Send driver packet bytes) ≡ true }
    requires spare { 0 < run.old.log.spare }
    ensures { GrowsOr o (entries.Send driver packet bytes) run.old run.new result }
{
    free_entries_stand();
    run_laws();
    if run.course.packets.reserve(1).is_err() {
        return Err(OutOfMemory);
    }
    let kept = bytes.copied(alloc)?;
    let entry = Entry::Send {
        driver,
        packet,
        bytes,
    };
    take(&mut run.book, &entry)?;
    run.log.append(entry);
    run.course.packets.push_reserved(Frame {
        bytes: kept,
        slot: None,
    });
    run.course.speak(driver);
    run.course.expired = 0;
    Ok(())
}

/// A driver cancels its packets of an id.
///
/// # Errors
/// [`OutOfMemory`] where the book wants memory; nothing has changed then.
pub(crate) fn write_cancel(run: &mut Running, driver: BindingNo, id: u32) -> Result<(), OutOfMemory>
    ghost o: { Point }
    requires run { IsRun o run.old }
    requires free { must o.state ≡ None }
    requires case { has_case o.state.owner (entries.Cancel driver id) ≡ true }
    requires spare { 0 < run.old.log.spare }
    ensures { GrowsOr o (entries.Cancel driver id) run.old run.new result }
{
    free_entries_stand();
    run_laws();
    let entry = Entry::Cancel { driver, id };
    take(&mut run.book, &entry)?;
    run.log.append(entry);
    run.course.speak(driver);
    Ok(())
}

/// A driver signals an event to its adapter.
///
/// # Errors
/// [`OutOfMemory`] where the book wants memory; nothing has changed then.
pub(crate) fn write_event(
    run: &mut Running,
    driver: BindingNo,
    number: u32,
    bytes: Bytes,
    taken: bool,
) -> Result<(), OutOfMemory>
    ghost o: { Point }
    requires run { IsRun o run.old }
    requires free { must o.state ≡ None }
    requires case { has_case o.state.owner (entries.Event driver number bytes taken) ≡ true }
    requires spare { 0 < run.old.log.spare }
    ensures { GrowsOr o (entries.Event driver number bytes taken) run.old run.new result }
{
    free_entries_stand();
    run_laws();
    let entry = Entry::Event {
        driver,
        number,
        bytes,
        taken,
    };
    take(&mut run.book, &entry)?;
    run.log.append(entry);
    run.course.speak(driver);
    Ok(())
}

/// A driver returns a loan.
pub(crate) fn write_return(run: &mut Running, driver: BindingNo, loan: LoanNo)
    ghost o: { Point }
    requires run { IsRun o run.old }
    requires free { must o.state ≡ None }
    requires case { has_case o.state.owner (entries.Return driver loan) ≡ true }
    requires spare { 0 < run.old.log.spare }
    ensures { Grows o (entries.Return driver loan) run.old run.new }
{
    free_entries_stand();
    run_laws();
    write(&mut run.book, &mut run.log, Entry::Return { driver, loan });
    run.course.speak(driver);
    run.course.expired = 0;
}

/// Answers a request with a status that is no success, and without bytes.
pub(crate) fn answer_without(run: &mut Running, alloc: Global, request: RequestNo, status: Status)
    ghost o: { Point }
    requires run { IsRun o run.old }
    requires meets { Meets o.inputs o.state (entries.Answer request status []) }
    requires other { status.0 ≢ 0 }
    requires spare { 0 < run.old.log.spare }
    ensures { Grows o (entries.Answer request status []) run.old run.new }
{
    match run.answer(request, status, Bytes::new(alloc)) {
        Ok(()) => {}
        Err(_) => unreachable!(),
    }
}
