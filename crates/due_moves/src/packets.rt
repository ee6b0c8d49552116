//! Ends of packets, and packets that go back into the queue.

ghost use Rattle.std.specs.Prelude.{◌≡◌, ◌<◌, Some};
ghost use Rattle.call_log.specs.declared.entry.Entry.TheVariants as entries;
ghost use Rattle.legal_run.specs.Must.{must, Exactly};
ghost use Rattle.miniport_state.specs.Seen.{Point};
ghost use Rattle.run_moves.specs.Runs.{Grows, IsRun};

use crate::told::packet_driver;
use call_log::Entry;
use legal_run::run_laws;
use miniport::write;
use nd_base::{PacketNo, Status};
use run_duties::each_duty_is_served;
use run_moves::Running;

/// A packet is completed with a status, as it must be.
pub fn complete(run: &mut Running, packet: PacketNo, status: Status)
    ghost o: { Point }
    requires run { IsRun o run.old }
    requires due { must o.state ≡ Some (Exactly (entries.Complete packet status)) }
    requires spare { 0 < run.old.log.spare }
    ensures { Grows o (entries.Complete packet status) run.old run.new }
{
    each_duty_is_served();
    run_laws();
    let driver = packet_driver(&run.book, packet);
    write(
        &mut run.book,
        &mut run.log,
        Entry::Complete { packet, status },
    );
    run.course.speak(driver);
    run.course.expired = 0;
}

/// A packet goes back into the queue, as it must.
pub fn requeue(run: &mut Running, packet: PacketNo)
    ghost o: { Point }
    requires run { IsRun o run.old }
    requires due { must o.state ≡ Some (Exactly (entries.Requeue packet)) }
    requires spare { 0 < run.old.log.spare }
    ensures { Grows o (entries.Requeue packet) run.old run.new }
{
    each_duty_is_served();
    run_laws();
    write(&mut run.book, &mut run.log, Entry::Requeue { packet });
}

/// A packet that a reset has aborted is late, as it must be.
pub fn late(run: &mut Running, packet: PacketNo)
    ghost o: { Point }
    requires run { IsRun o run.old }
    requires due { must o.state ≡ Some (Exactly (entries.Late packet)) }
    requires spare { 0 < run.old.log.spare }
    ensures { Grows o (entries.Late packet) run.old run.new }
{
    each_duty_is_served();
    run_laws();
    write(&mut run.book, &mut run.log, Entry::Late { packet });
}
