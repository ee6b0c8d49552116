//! Entries that end packets and requests, and entries that change the book alone.

ghost use Rattle.std.specs.Prelude.{◌≡◌, ◌<◌, true, false, OnErr};
ghost use Rattle.call_log.specs.Lines.{InRange};
ghost use Rattle.call_log.specs.declared.entry.Entry.TheVariants as entries;
ghost use Rattle.owner_book.specs.Admitting.{takes_memory};
ghost use Rattle.legal_run.specs.State.{State};
ghost use Rattle.legal_run.specs.After.{packet_driver, request_driver};
ghost use Rattle.legal_run.specs.Run.{Meets};
ghost use Rattle.miniport_state.specs.Seen.{Point};
ghost use Rattle.packet_pool.specs.LiveSet.{is_out};
ghost use Rattle.packet_pool.specs.declared.states.Kind.TheVariants.{Packet};
ghost use Rattle.run_course.specs.Shown.{Shows};
ghost use Rattle.run_moves.specs.Runs.{AnswersOr, Grows, IsRun, changes_book_alone, makes_progress, lent_at, progressed};

use crate::running::Running;
use call_log::Entry;
use legal_run::run_laws;
use miniport::write;
use nd_base::{Addr, BindingNo, Bytes, LoanNo, OutOfMemory, PacketNo, RequestNo, Status};
use owner_book::{Book, Refusal};
use run_course::Course;

/// The driver that sent a packet.
fn packet_driver(book: &Book, packet: PacketNo) -> BindingNo
    ghost s: { State }
    requires { book.now ≡ s.owner }
    ensures { result.0 ≡ packet_driver s packet.0 }
{
    match book.packet(packet) {
        Some(row) => row.driver,
        None => BindingNo(0),
    }
}

/// The driver that asked a question.
fn request_driver(book: &Book, request: RequestNo) -> BindingNo
    ghost s: { State }
    requires { book.now ≡ s.owner }
    ensures { result.0 ≡ request_driver s request.0 }
{
    match book.request(request) {
        Some(row) => row.driver,
        None => BindingNo(0),
    }
}

/// The descriptor that was lent.
fn lent_at(course: &Course, loan: LoanNo) -> u32
    ghost s: { State }
    requires { Shows s course.now }
    ensures { result ≡ lent_at s loan.0 }
{
    match course.lent.get(loan.0 as usize) {
        Some(&descriptor) => descriptor,
        None => 0,
    }
}

/// Whether an entry counts as something that was done.
fn makes_progress(entry: &Entry) -> bool
    ensures { result ≡ makes_progress entry.now }
{
    matches!(entry, Entry::Hand { .. } | Entry::WireOut { .. })
}

/// How many timers and hang checks have expired since something was done.
fn progressed(before: u64, done: bool) -> u64
    ensures { result ≡ progressed before done }
{
    if done { 0 } else { before }
}

impl Running {
    /// A packet is completed.
    pub fn complete(&mut self, packet: PacketNo, status: Status)
        ghost o: { Point }
        requires run { IsRun o self.old }
        requires meets { Meets o.inputs o.state (entries.Complete packet status) }
        requires spare { 0 < self.old.log.spare }
        ensures { Grows o (entries.Complete packet status) self.old self.new }
    {
        run_laws();
        let driver = packet_driver(&self.book, packet);
        write(
            &mut self.book,
            &mut self.log,
            Entry::Complete { packet, status },
        );
        self.course.speak(driver);
        self.course.expired = 0;
    }

    /// A loan goes home.
    pub fn back(&mut self, loan: LoanNo, failed: bool)
        ghost o: { Point }
        requires run { IsRun o self.old }
        requires meets { Meets o.inputs o.state (entries.Back loan failed) }
        requires live { is_out o.state.world.pools Packet (lent_at o.state loan.0) ≡ true }
        requires spare { 0 < self.old.log.spare }
        ensures { Grows o (entries.Back loan failed) self.old self.new }
    {
        run_laws();
        let descriptor = lent_at(&self.course, loan);
        write(&mut self.book, &mut self.log, Entry::Back { loan, failed });
        self.world.pools.unlend(Addr(descriptor));
        self.course.expired = 0;
    }

    /// A request is answered.
    ///
    /// # Errors
    /// [`OutOfMemory`] where the driver learns what it set, and memory is wanted for it; nothing has
    /// changed then.
    pub fn answer(
        &mut self,
        request: RequestNo,
        status: Status,
        bytes: Bytes,
    ) -> Result<(), OutOfMemory>
        ghost o: { Point }
        requires run { IsRun o self.old }
        requires meets { Meets o.inputs o.state (entries.Answer request status bytes) }
        requires spare { 0 < self.old.log.spare }
        ensures answer { AnswersOr o (entries.Answer request status bytes) self.old self.new result }
        ensures memory { OnErr result (status.0 ≡ 0) }
    {
        run_laws();
        let driver = request_driver(&self.book, request);
        let entry = Entry::Answer {
            request,
            status,
            bytes,
        };
        match self.book.admit(&entry) {
            Ok(()) => {}
            Err(Refusal::OutOfMemory) => return Err(OutOfMemory),
            Err(Refusal::Broken(_)) => unreachable!(),
        }
        self.log.append(entry);
        self.course.speak(driver);
        self.course.expired = 0;
        Ok(())
    }

    /// An entry that changes the book alone: a tag, a packet that is handed, given back or late, a request
    /// that is handed, the beginning or end of a reset, an access to a port and what it sends.
    pub fn note(&mut self, entry: Entry)
        ghost o: { Point }
        requires run { IsRun o self.old }
        requires alone { changes_book_alone entry ≡ true }
        requires meets { Meets o.inputs o.state entry }
        requires memory { takes_memory entry ≡ false }
        requires range { InRange entry }
        requires spare { 0 < self.old.log.spare }
        ensures { Grows o entry self.old self.new }
    {
        run_laws();
        let expired = progressed(self.course.expired, makes_progress(&entry));
        write(&mut self.book, &mut self.log, entry);
        self.course.expired = expired;
    }
}
