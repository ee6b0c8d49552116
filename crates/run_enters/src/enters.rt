//! Handlers that are owed are entered.

ghost use Rattle.std.specs.Prelude.{◌≡◌, ◌<◌, ◌≤◌, ◌+◌, ◌^◌, true, false, None, Some};
ghost use Rattle.log_fields.specs.declared.field_values.Handler.TheVariants as handler;
ghost use Rattle.guest_world.specs.Worlds.{longest_time};
ghost use Rattle.owner_book.specs.Stopping.{stop_room};
ghost use Rattle.legal_run.specs.State.{Inputs, is_free};
ghost use Rattle.legal_run.specs.Owed.{frame_due, is_owed, owes_entry};
ghost use Rattle.legal_run.specs.VerdictLaws.{is_send};
ghost use Rattle.owed_handlers.specs.Laws.{IsOwed};
ghost use Rattle.run_stops.specs.Standing.{IsGiven, IsSettled, state_of};
ghost use Rattle.run_stops.specs.Stopping.{owner_of};
ghost use Rattle.run_enters.specs.Entered.{EntersByOr, EntersOwed, first_context, sends};

use crate::alone::enter_alone;
use crate::asks::enter_asked;
use crate::homes::enter_home;
use crate::laws::all_are_free;
use crate::prepared::{prepare_entry, prepare_owed};
use crate::resets::enter_reset;
use handler_words::enter_laws;
use log_fields::Handler;
use nd_base::{AdapterNo, CtxNo, OutOfMemory};
use owed_handlers::Owed;
use run_facts::{adapters_are_given, lists_keep_their_lengths};
use run_moves::Running;
use std::alloc::Global;

/// The context of DriverEntry.
const FIRST: CtxNo = CtxNo(0);

/// DriverEntry is entered, where it is owed.
///
/// # Errors
/// [`OutOfMemory`] where no memory is left.
pub fn enter_entry(run: &mut Running, alloc: Global) -> Result<(), OutOfMemory>
    ghost c: { Inputs }
    requires settled { IsSettled c run.old }
    requires owed { owes_entry c (state_of c run.old) ≡ true }
    requires frames { frame_due c (state_of c run.old) ≡ false }
    requires time { run.old.world.clock.clock + longest_time < 2 ^ 64 }
    requires room { stop_room (owner_of c run.old) + 3 ≤ run.old.log.spare }
    ensures { EntersByOr c None first_context handler.DriverEntry run.old run.new result }
{
    all_are_free();
    enter_laws();
    let entering = prepare_entry(run, alloc, FIRST)?;
    enter_alone(run, FIRST, None, Handler::DriverEntry, entering)
}

/// A handler that an adapter owes, and that sends no packets, is entered in a free context: with the
/// begin of a reset in front of it, and behind it with what it is entered for.
///
/// # Errors
/// [`OutOfMemory`] where no memory is left, or a word can't tell the length of what is written.
pub fn enter_handler(
    run: &mut Running,
    alloc: Global,
    x: CtxNo,
    a: AdapterNo,
    h: Handler,
) -> Result<(), OutOfMemory>
    ghost c: { Inputs }
    requires settled { IsSettled c run.old }
    requires given { IsGiven c }
    requires owed { is_owed c (state_of c run.old) a.0 h ≡ true }
    requires plain { is_send h ≡ false }
    requires context { x.0 < 16 }
    requires free { is_free (state_of c run.old) x.0 ≡ true }
    requires frames { frame_due c (state_of c run.old) ≡ false }
    requires time { run.old.world.clock.clock + longest_time < 2 ^ 64 }
    requires room { stop_room (owner_of c run.old) + 3 ≤ run.old.log.spare }
    ensures { EntersByOr c (Some a) x h run.old run.new result }
{
    adapters_are_given();
    enter_laws();
    lists_keep_their_lengths();
    let Some(entering) = prepare_owed(run, alloc, x, a, h)? else {
        unreachable!()
    };
    match h {
        Handler::Query | Handler::Set => enter_asked(run, x, a, h, entering),
        Handler::ReturnPacket => enter_home(run, x, a, entering),
        Handler::Reset => enter_reset(run, x, a, entering),
        _ => enter_alone(run, x, Some(a), h, entering),
    }
}

/// What is owed is entered: DriverEntry in the first context, an adapter's handler in a free one.
///
/// # Errors
/// [`OutOfMemory`] where no memory is left, or a word can't tell the length of what is written.
pub fn enter(run: &mut Running, alloc: Global, x: CtxNo, owed: Owed) -> Result<(), OutOfMemory>
    ghost c: { Inputs }
    requires settled { IsSettled c run.old }
    requires given { IsGiven c }
    requires owed { IsOwed c (state_of c run.old) owed }
    requires plain { sends owed ≡ false }
    requires context { x.0 < 16 }
    requires free { is_free (state_of c run.old) x.0 ≡ true }
    requires frames { frame_due c (state_of c run.old) ≡ false }
    requires time { run.old.world.clock.clock + longest_time < 2 ^ 64 }
    requires room { stop_room (owner_of c run.old) + 3 ≤ run.old.log.spare }
    ensures { EntersOwed c x owed run.old run.new result }
{
    match owed {
        Owed::Entry => enter_entry(run, alloc),
        Owed::Handler(a, h) => enter_handler(run, alloc, x, a, h),
    }
}
