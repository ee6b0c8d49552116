//! Jumps of the clock, the stop of an adapter where nothing happens any more, and waits in vain.

ghost use Rattle.std.specs.Prelude.{◌≡◌, ◌≤◌, ◌+◌, true};
ghost use Rattle.call_log.specs.declared.entry.Entry.TheVariants as entries;
ghost use Rattle.owner_book.specs.Stopping.{stop_room};
ghost use Rattle.legal_run.specs.State.{Inputs};
ghost use Rattle.legal_run.specs.After.{breach};
ghost use Rattle.legal_run.specs.Owed.{may_be_quiet, may_be_silent, may_jump};
ghost use Rattle.run_stops.specs.Standing.{IsGiven, IsSettled, SettlesBy, state_of};
ghost use Rattle.run_stops.specs.Stopping.{owner_of};

use call_log::Cause;
use miniport::free_entries_stand;
use nd_base::{AdapterNo, BindingNo, Breach};
use run_facts::lists_keep_their_lengths;
use run_moves::Running;
use run_stops::{moves_add, stop_whole, stops_take_room};
use std::alloc::Global;

/// The rule that an adapter breaks that never ends what it has begun.
const SILENCE: Breach = Breach(13);

/// The clock goes on to a moment.
pub fn jump(run: &mut Running, moment: u64)
    ghost c: { Inputs }
    requires settled { IsSettled c run.old }
    requires may { may_jump c (state_of c run.old) moment ≡ true }
    requires room { stop_room (owner_of c run.old) + 3 ≤ run.old.log.spare }
    ensures { SettlesBy c (entries.Time moment) run.old run.new }
{
    free_entries_stand();
    moves_add();
    run.jump(moment);
}

/// An adapter is stopped, because nothing happens any more, and all that is outstanding of it ends.
pub fn silence(run: &mut Running, alloc: Global, a: AdapterNo)
    ghost c: { Inputs }
    requires settled { IsSettled c run.old }
    requires given { IsGiven c }
    requires may { may_be_silent c (state_of c run.old) a.0 ≡ true }
    requires room { stop_room (owner_of c run.old) + 3 ≤ run.old.log.spare }
    ensures { SettlesBy c (entries.Stop a (breach 13)) run.old run.new }
{
    free_entries_stand();
    lists_keep_their_lengths();
    stops_take_room();
    stop_whole(run, alloc, a, Cause::Breach(SILENCE));
}

/// A driver hears that it waits in vain.
pub fn quiet(run: &mut Running, driver: BindingNo)
    ghost c: { Inputs }
    requires settled { IsSettled c run.old }
    requires may { may_be_quiet c (state_of c run.old) driver.0 ≡ true }
    requires room { stop_room (owner_of c run.old) + 3 ≤ run.old.log.spare }
    ensures { SettlesBy c (entries.Quiet driver) run.old run.new }
{
    moves_add();
    run.quiet(driver);
}
