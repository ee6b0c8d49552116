//! Drivers that bind, unbind, wait, and are done.

ghost use Rattle.std.specs.Prelude.{◌≡◌, ◌<◌, ◌≤◌, ◌+◌, true, length};
ghost use Rattle.call_log.specs.declared.entry.Entry.TheVariants as entries;
ghost use Rattle.owner_machine.specs.Adapters.{may_bind, may_unbind};
ghost use Rattle.owner_book.specs.Stopping.{stop_room};
ghost use Rattle.legal_run.specs.State.{Inputs};
ghost use Rattle.run_stops.specs.Standing.{IsSettled, SettlesBy};
ghost use Rattle.run_stops.specs.Stopping.{owner_of};

use call_log::Condition;
use legal_run::run_laws;
use nd_base::{AdapterNo, BindingNo};
use run_moves::Running;
use run_stops::moves_add;
use stop_rooms::rooms_stay;

/// A driver binds to its adapter.
pub fn bind(run: &mut Running, driver: BindingNo, adapter: AdapterNo)
    ghost c: { Inputs }
    requires settled { IsSettled c run.old }
    requires may { may_bind (owner_of c run.old) driver.0 adapter.0 ≡ true }
    requires room { stop_room (owner_of c run.old) + 3 ≤ run.old.log.spare }
    ensures { SettlesBy c (entries.Bind driver adapter) run.old run.new }
{
    moves_add();
    rooms_stay();
    run_laws();
    run.bind(driver, adapter);
}

/// A driver unbinds.
pub fn unbind(run: &mut Running, driver: BindingNo)
    ghost c: { Inputs }
    requires settled { IsSettled c run.old }
    requires may { may_unbind (owner_of c run.old) driver.0 ≡ true }
    requires room { stop_room (owner_of c run.old) + 3 ≤ run.old.log.spare }
    ensures { SettlesBy c (entries.Unbind driver) run.old run.new }
{
    moves_add();
    rooms_stay();
    run_laws();
    run.unbind(driver);
}

/// A driver awaits something.
pub fn wait(run: &mut Running, driver: BindingNo, condition: Condition)
    ghost c: { Inputs }
    requires settled { IsSettled c run.old }
    requires number { driver.0 < length c.drivers }
    requires room { stop_room (owner_of c run.old) + 3 ≤ run.old.log.spare }
    ensures { SettlesBy c (entries.Await driver condition) run.old run.new }
{
    moves_add();
    rooms_stay();
    run_laws();
    run.wait(driver, condition);
}

/// A driver is done.
pub fn end(run: &mut Running, driver: BindingNo)
    ghost c: { Inputs }
    requires settled { IsSettled c run.old }
    requires number { driver.0 < length c.drivers }
    requires room { stop_room (owner_of c run.old) + 3 ≤ run.old.log.spare }
    ensures { SettlesBy c (entries.Done driver) run.old run.new }
{
    moves_add();
    rooms_stay();
    run_laws();
    run.end(driver);
}
