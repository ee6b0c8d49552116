//! Entries of protocol drivers.

ghost use Rattle.std.specs.Prelude.{◌≡◌, ◌<◌, true, None};
ghost use Rattle.call_log.specs.declared.entry.Entry.TheVariants as entries;
ghost use Rattle.owner_machine.specs.Machine.{has_case};
ghost use Rattle.legal_run.specs.Must.{must};
ghost use Rattle.legal_run.specs.Run.{freely};
ghost use Rattle.miniport_state.specs.Seen.{Point};
ghost use Rattle.run_moves.specs.Runs.{Grows, IsRun};

use crate::running::Running;
use call_log::{Condition, Entry};
use legal_run::run_laws;
use miniport::{free_entries_stand, write};
use nd_base::{AdapterNo, BindingNo};

impl Running {
    /// A driver binds to its adapter.
    pub fn bind(&mut self, driver: BindingNo, adapter: AdapterNo)
        ghost o: { Point }
        requires run { IsRun o self.old }
        requires free { must o.state ≡ None }
        requires case { has_case o.state.owner (entries.Bind driver adapter) ≡ true }
        requires spare { 0 < self.old.log.spare }
        ensures { Grows o (entries.Bind driver adapter) self.old self.new }
    {
        free_entries_stand();
        run_laws();
        write(
            &mut self.book,
            &mut self.log,
            Entry::Bind { driver, adapter },
        );
        self.course.speak(driver);
        self.course.expired = 0;
    }

    /// A driver unbinds.
    pub fn unbind(&mut self, driver: BindingNo)
        ghost o: { Point }
        requires run { IsRun o self.old }
        requires free { must o.state ≡ None }
        requires case { has_case o.state.owner (entries.Unbind driver) ≡ true }
        requires spare { 0 < self.old.log.spare }
        ensures { Grows o (entries.Unbind driver) self.old self.new }
    {
        free_entries_stand();
        run_laws();
        write(&mut self.book, &mut self.log, Entry::Unbind { driver });
        self.course.speak(driver);
        self.course.expired = 0;
    }

    /// A driver awaits something.
    pub fn wait(&mut self, driver: BindingNo, condition: Condition)
        ghost o: { Point }
        requires run { IsRun o self.old }
        requires free { must o.state ≡ None }
        requires freely { freely o.inputs o.state (entries.Await driver condition) ≡ true }
        requires spare { 0 < self.old.log.spare }
        ensures { Grows o (entries.Await driver condition) self.old self.new }
    {
        free_entries_stand();
        run_laws();
        write(
            &mut self.book,
            &mut self.log,
            Entry::Await { driver, condition },
        );
        self.course.wait(driver, condition);
    }

    /// A driver is done.
    pub fn end(&mut self, driver: BindingNo)
        ghost o: { Point }
        requires run { IsRun o self.old }
        requires free { must o.state ≡ None }
        requires freely { freely o.inputs o.state (entries.Done driver) ≡ true }
        requires spare { 0 < self.old.log.spare }
        ensures { Grows o (entries.Done driver) self.old self.new }
    {
        free_entries_stand();
        run_laws();
        write(&mut self.book, &mut self.log, Entry::Done { driver });
        self.course.end(driver);
    }

    /// A driver hears that it waits in vain.
    pub fn quiet(&mut self, driver: BindingNo)
        ghost o: { Point }
        requires run { IsRun o self.old }
        requires free { must o.state ≡ None }
        requires freely { freely o.inputs o.state (entries.Quiet driver) ≡ true }
        requires spare { 0 < self.old.log.spare }
        ensures { Grows o (entries.Quiet driver) self.old self.new }
    {
        free_entries_stand();
        run_laws();
        write(&mut self.book, &mut self.log, Entry::Quiet { driver });
        self.course.speak(driver);
    }
}
