//! The stops that a context brings: of its adapter, or, where it is DriverEntry's, of every adapter.

ghost use Rattle.std.specs.Prelude.{◌≡◌, ◌<◌, ◌≤◌, ◌+◌, false, length, None, Some};
ghost use Rattle.std.specs.List.{list_any};
ghost use Rattle.log_fields.specs.Fields.{HasRule};
ghost use Rattle.call_log.specs.declared.entry.Entry.TheVariants as entries;
ghost use Rattle.owner_machine.specs.Handlers.{outstanding};
ghost use Rattle.owner_machine.specs.Must.{owner_must};
ghost use Rattle.owner_book.specs.Stopping.{stop_room};
ghost use Rattle.legal_run.specs.State.{Inputs, Stops};
ghost use Rattle.legal_run.specs.After.{adapters_stopped};
ghost use Rattle.legal_run.specs.Must.{Exactly, must};
ghost use Rattle.legal_run.specs.Run.{is_memory_stop};
ghost use Rattle.run_stops.specs.Standing.{Runs, Settles, state_of};
ghost use Rattle.run_stops.specs.Stopping.{IsStopping, StopsOn, StopsWhole, is_memory, owner_of};

use crate::tails::stop_whole;
use call_log::Cause;
use nd_base::AdapterNo;
use run_duties::each_duty_is_served;
use run_facts::lists_keep_their_lengths;
use run_moves::Running;
use std::alloc::Global;

/// Stops the adapter that must be stopped next.
fn stop_next(run: &mut Running, alloc: Global, a: AdapterNo, cause: Cause)
    ghost c: { Inputs }
    requires run { Runs c run.old }
    requires due { must (state_of c run.old) ≡ Some (Exactly (entries.Stop a cause)) }
    requires range { HasRule cause }
    requires few { length c.drivers < 256 }
    requires spare { outstanding (owner_of c run.old) a.0 < run.old.log.spare }
    ensures { StopsWhole c a cause run.old run.new }
{
    each_duty_is_served();
    stop_whole(run, alloc, a, cause);
}

/// Stops an adapter that is not stopped, where those in front of it are.
fn stop_if_due(run: &mut Running, alloc: Global, a: AdapterNo, cause: Cause)
    ghost c: { Inputs }
    requires stopping { IsStopping c a.0 cause run.old }
    requires fed { list_any is_memory_stop run.old.log.entries ≡ false }
    requires within { a.0 < length c.adapters }
    requires range { HasRule cause }
    requires other { is_memory cause ≡ false }
    requires few { length c.drivers < 256 }
    ensures { StopsOn c (a.0 + 1) cause run.old run.new }
{
    lists_keep_their_lengths();
    if run.book.stands(a) {
        stop_next(run, alloc, a, cause);
    }
}

/// Stops every adapter that is not stopped, in rising order.
fn stop_every(run: &mut Running, alloc: Global, cause: Cause)
    ghost c: { Inputs }
    requires run { Runs c run.old }
    requires due { (state_of c run.old).next ≡ Stops cause (adapters_stopped c (state_of c run.old) None) }
    requires silent { owner_must (owner_of c run.old) ≡ None }
    requires fed { list_any is_memory_stop run.old.log.entries ≡ false }
    requires range { HasRule cause }
    requires other { is_memory cause ≡ false }
    requires adapters { length c.adapters < 256 }
    requires drivers { length c.drivers < 256 }
    requires spare { stop_room (owner_of c run.old) ≤ run.old.log.spare }
    ensures { Settles c run.old run.new }
{
    lists_keep_their_lengths();
    for n in 0..run.book.adapters() as u8 {
        stop_if_due(run, alloc, AdapterNo(n), cause);
    }
}

/// The stops that stand behind a breach, a fault or a spent budget of a context of this adapter, each with
/// its tail; of DriverEntry's, which is of no adapter, those of every adapter that is not stopped.
pub fn stop_for(run: &mut Running, alloc: Global, adapter: Option<AdapterNo>, cause: Cause)
    ghost c: { Inputs }
    requires run { Runs c run.old }
    requires due { (state_of c run.old).next ≡ Stops cause (adapters_stopped c (state_of c run.old) adapter) }
    requires silent { owner_must (owner_of c run.old) ≡ None }
    requires fed { list_any is_memory_stop run.old.log.entries ≡ false }
    requires range { HasRule cause }
    requires other { is_memory cause ≡ false }
    requires adapters { length c.adapters < 256 }
    requires drivers { length c.drivers < 256 }
    requires spare { stop_room (owner_of c run.old) ≤ run.old.log.spare }
    ensures { Settles c run.old run.new }
{
    each_duty_is_served();
    match adapter {
        Some(a) => stop_next(run, alloc, a, cause),
        None => stop_every(run, alloc, cause),
    }
}
