//! The level of the caller.

ghost use Rattle.std.specs.Prelude.{◌≤◌, length};
ghost use Rattle.guest_world.specs.Worlds.{CanAnswer};
ghost use Rattle.import_answers.specs.Levels.{raise, lower};
ghost use Rattle.import_answers.specs.Outcomes.{Comes};

use call_replies::{done, returns};
use guest_world::{Answer, CallRefusal, Caller, World};
use std::alloc::Global;

/// KfRaiseIrql, import 4: raises the caller's level to the one in CL; EAX is the old level.
pub fn raise(
    alloc: Global,
    world: &mut World,
    caller: Caller,
    words: &[u32],
) -> Result<Answer, CallRefusal>
    requires can { CanAnswer world.old caller }
    requires words { 1 ≤ length words.now }
    ensures { Comes (raise world.old caller words.now) world.old result world.new }
{
    let to = (words[0] % 256) as u8;
    match world.levels.raise(caller.context, to) {
        Ok(old) => Ok(returns(alloc, u32::from(old))),
        Err(broken) => Err(CallRefusal::Broken(broken)),
    }
}

/// KfLowerIrql, import 5: lowers the caller's level to the one in CL.
pub fn lower(
    alloc: Global,
    world: &mut World,
    caller: Caller,
    words: &[u32],
) -> Result<Answer, CallRefusal>
    requires can { CanAnswer world.old caller }
    requires words { 1 ≤ length words.now }
    ensures { Comes (lower world.old caller words.now) world.old result world.new }
{
    let to = (words[0] % 256) as u8;
    match world.levels.lower(caller.context, to) {
        Ok(()) => Ok(done(alloc)),
        Err(broken) => Err(CallRefusal::Broken(broken)),
    }
}
