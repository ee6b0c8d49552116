//! The run-time.

ghost use Rattle.std.specs.Prelude.{◌≡◌};
ghost use Rattle.import_answers.specs.Outcomes.{Comes};
ghost use Rattle.import_answers.specs.Runtime as run_time;

use call_replies::done;
use guest_world::{Answer, CallRefusal, Reply, SentFrames, World};
use log_fields::Writes;
use std::alloc::Global;

/// KeStallExecutionProcessor (61): its microseconds are its cost.
pub fn stall(alloc: Global, world: &World, words: &[u32; 8]) -> Result<Answer, CallRefusal>
    ensures { Comes (run_time.stall world.now words.now) world.now result world.now }
{
    let _world = world;
    Ok(Answer::Now(Reply {
        eax: 0,
        writes: Writes::new(alloc),
        cost: 1 + u64::from(words[0]),
        sent: SentFrames::new(alloc),
    }))
}

/// DbgPrint (64).
pub fn debug_print(alloc: Global, world: &World) -> Result<Answer, CallRefusal>
    ensures { Comes (run_time.debug_print world.now) world.now result world.now }
{
    let _world = world;
    Ok(done(alloc))
}
