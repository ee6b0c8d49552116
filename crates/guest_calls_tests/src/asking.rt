//! A call of context 0. Before each, the context is closed and opened anew at the level that the call
//! is made at.

ghost use Rattle.std.specs.Prelude.{◌≡◌, ◌≤◌, true, IfSome, IsSome, Some, slice_index_or};
ghost use Rattle.guest_world.specs.declared.answer.Caller.{Caller};
ghost use Rattle.irql_lock.specs.LockState.{IsOpen};
ghost use Rattle.guest_world.specs.Worlds.{IsIdle, adapter_of};
ghost use Rattle.import_answers.specs.Answers.{eight};
ghost use Rattle.guest_calls.specs.Rows.{IsCall};
ghost use Rattle.guest_calls_tests.specs.Ready.{IsReady, first, only};

use crate::worlds::LOCK;
use guest_calls::answer;
use guest_world::{Answer, CallRefusal, Caller, World};
use import_table::Call;
use irql_lock::{Levels, Took, end_laws};
use log_fields::Handler;
use nd_base::{AdapterNo, Addr, CtxNo};
use std::alloc::Global;

const CONTEXT: CtxNo = CtxNo(0);

/// No test has a later clock.
const LATEST: u64 = 1_000_000_000_000;

/// Word k of those given, from 0, or 0.
fn word(given: &[u32], k: usize) -> u32
    ensures { result ≡ slice_index_or given.now k 0 }
{
    match given.get(k) {
        Some(word) => *word,
        None => 0,
    }
}

/// Words of a call, with zeros behind them.
#[tactic(auto, using(crate::proofs::Padded::eight_of))]
fn padded(given: &[u32]) -> [u32; 8]
    ensures { result ≡ eight given.now }
{
    [
        word(given, 0),
        word(given, 1),
        word(given, 2),
        word(given, 3),
        word(given, 4),
        word(given, 5),
        word(given, 6),
        word(given, 7),
    ]
}

/// The call of an import with these words.
#[tactic(auto, using(crate::proofs::Padded::zeros))]
pub fn call_of(import: u8, given: &[u32]) -> Option<Call>
    ensures { IfSome result IsCall }
{
    if import < 1 || import > 64 || given.len() > 8 {
        return None;
    }
    Some(Call {
        import,
        count: given.len() as u8,
        words: padded(given),
    })
}

/// Opens the context at a level.
fn open(levels: &mut Levels, level: u8)
    ensures { IsOpen levels.new first }
{
    end_laws();
    levels.end(CONTEXT);
    levels.begin(CONTEXT, level);
}

/// Takes the frame that waits in adapter 0's card, and takes other adapters away. Whether that was
/// done.
fn is_idle(alloc: Global, world: &mut World) -> bool
    ensures idle { result ≡ true → IsIdle world.new }
    ensures there { result ≡ true → IsSome (adapter_of world.new (Some only)) }
{
    let Some(mut adapter) = world.adapters[0].take() else {
        return false;
    };
    let taken = adapter.card.take_sent(alloc).is_ok();
    world.adapters = [Some(adapter), None, None, None];
    taken
}

/// Whether the context, which is open, gets the lock.
fn is_held(levels: &mut Levels) -> bool
    requires { IsOpen levels.old first }
    ensures { IsOpen levels.new first }
{
    levels.acquire(CONTEXT, Addr(LOCK), true) == Ok(Took::Got)
}

/// Makes the context ready for a call at a level, holding the lock or not. Whether that was done.
pub fn ready(alloc: Global, world: &mut World, level: u8, holding: bool) -> bool
    ensures { result ≡ true → IsReady world.new }
{
    if !is_idle(alloc, world) {
        return false;
    }
    if world.clock.now() > LATEST {
        return false;
    }
    open(&mut world.levels, level);
    if holding {
        return is_held(&mut world.levels);
    }
    true
}

fn caller(adapter: Option<AdapterNo>, handler: Handler) -> Caller
    ensures { result ≡ record { context = first; adapter = adapter; handler = handler } }
{
    Caller {
        context: CONTEXT,
        adapter,
        handler,
    }
}

/// What a call in a handler gets: DriverEntry has no adapter, the others are of adapter 0.
pub fn asked(
    alloc: Global,
    world: &mut World,
    handler: Handler,
    call: &Call,
) -> Result<Answer, CallRefusal>
    requires ready { IsReady world.old }
    requires call { IsCall call.now }
{
    match handler {
        Handler::DriverEntry => answer(alloc, world, caller(None, handler), call),
        _ => answer(alloc, world, caller(Some(AdapterNo(0)), handler), call),
    }
}
