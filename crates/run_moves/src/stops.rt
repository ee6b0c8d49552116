//! The stop of an adapter, and jumps of the clock.

ghost use Rattle.std.specs.Prelude.{◌≡◌, ◌<◌, ◌&&◌, ◌==◌, false, length, slice_get};
ghost use Rattle.std.specs.Option.{option_map_or};
ghost use Rattle.call_log.specs.Lines.{InRange};
ghost use Rattle.call_log.specs.declared.entry.Entry.TheVariants as entries;
ghost use Rattle.owner_machine.specs.State.{is_bound};
ghost use Rattle.legal_run.specs.State.{clock, State};
ghost use Rattle.legal_run.specs.After.{all_spoke, bound_to};
ghost use Rattle.legal_run.specs.Run.{Meets};
ghost use Rattle.miniport_state.specs.Seen.{Point};
ghost use Rattle.run_course.specs.Shown.{Shows};
ghost use Rattle.run_moves.specs.Runs.{Grows, IsRun};

use crate::running::Running;
use call_log::{Cause, Entry};
use handler_leaves::stop;
use legal_run::run_laws;
use miniport::write;
use nd_base::{AdapterNo, BindingNo};
use owner_book::Book;
use owner_machine::Binding;
use run_course::Course;
use run_facts::lists_keep_their_lengths;

/// Whether a driver is bound to an adapter.
fn is_bound_to(book: &Book, driver: BindingNo, a: AdapterNo) -> bool
    ensures { result ≡ option_map_or (λ d. is_bound d.binding && (d.adapter.0 == a.0)) (slice_get book.now.drivers driver.0) false }
{
    match book.driver(driver) {
        Some(row) => matches!(row.binding, Binding::Bound) && row.adapter.0 == a.0,
        None => false,
    }
}

/// Each driver that is bound to an adapter is told something.
fn tell_bound(course: &mut Course, book: &Book, a: AdapterNo)
    ghost s: { State }
    requires shown { Shows s course.old }
    requires owner { book.now ≡ s.owner }
    requires few { length s.owner.drivers < 256 }
    ensures { Shows (all_spoke s (bound_to s a.0)) course.new }
{
    for n in 0..book.drivers() as u8 {
        let driver = BindingNo(n);
        if is_bound_to(book, driver, a) {
            course.speak(driver);
        }
    }
}

impl Running {
    /// An adapter is stopped: its contexts end with their levels, holds and spins, its timers are disarmed,
    /// its queued handler goes, and the drivers that are bound to it are told.
    pub fn stop(&mut self, a: AdapterNo, cause: Cause)
        ghost o: { Point }
        requires run { IsRun o self.old }
        requires meets { Meets o.inputs o.state (entries.Stop a cause) }
        requires range { InRange (entries.Stop a cause) }
        requires few { length o.inputs.drivers < 256 }
        requires spare { 0 < self.old.log.spare }
        ensures { Grows o (entries.Stop a cause) self.old self.new }
    {
        run_laws();
        lists_keep_their_lengths();
        stop(&mut self.world, &self.book, a);
        tell_bound(&mut self.course, &self.book, a);
        let entry = Entry::Stop { adapter: a, cause };
        write(&mut self.book, &mut self.log, entry);
    }

    /// The clock goes on to a moment.
    pub fn jump(&mut self, moment: u64)
        ghost o: { Point }
        requires run { IsRun o self.old }
        requires meets { Meets o.inputs o.state (entries.Time moment) }
        requires later { clock o.state < moment }
        requires spare { 0 < self.old.log.spare }
        ensures { Grows o (entries.Time moment) self.old self.new }
    {
        run_laws();
        write(&mut self.book, &mut self.log, Entry::Time { clock: moment });
        self.world.clock.rise(moment - self.world.clock.now());
    }
}
