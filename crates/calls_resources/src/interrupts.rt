//! An adapter's interrupt.

ghost use Rattle.std.specs.Prelude.{◌≡◌};
ghost use Rattle.import_answers.specs.World.{IsNumber};
ghost use Rattle.import_answers.specs.Outcomes.{Comes};
ghost use Rattle.import_answers.specs.Resources as resources;

use call_parts::{FAILURE, SUCCESS, hardware_of, is_function};
use call_replies::{ARGUMENTS_RULE, done, is_adapter_handle, returns};
use guest_world::{Answer, CallRefusal, Caller, Interrupt, World};
use nd_base::{AdapterNo, Addr};
use std::alloc::Global;

/// NdisMRegisterInterrupt (13).
pub fn register_interrupt(
    alloc: Global,
    world: &mut World,
    caller: &Caller,
    words: &[u32; 8],
) -> Result<Answer, CallRefusal>
    requires { IsNumber caller.now.adapter }
    ensures { Comes (resources.register_interrupt world.old caller.now words.now) world.old result world.new }
{
    let Some(a) = caller.adapter else {
        return Err(ARGUMENTS_RULE);
    };
    if !is_adapter_handle(caller.adapter, words[1]) {
        return Err(ARGUMENTS_RULE);
    }
    if words[2] != u32::from(hardware_of(world, caller.adapter).irq) {
        return Ok(returns(alloc, FAILURE));
    }
    let given = Interrupt {
        object: Addr(words[0]),
        enters_isr: words[4] != 0 || words[5] != 0,
    };
    world.set_interrupt(a, Some(given));
    Ok(returns(alloc, SUCCESS))
}

/// Whether the object is the one of the interrupt that is registered of the adapter.
fn is_interrupt(world: &World, adapter: Option<AdapterNo>, object: u32) -> bool
    requires { IsNumber adapter }
    ensures { result ≡ resources.is_interrupt world.now adapter object }
{
    let Some(a) = adapter else {
        return false;
    };
    match &world.adapters[usize::from(a.0)] {
        Some(adapter) => match adapter.interrupt {
            Some(given) => given.object.0 == object,
            None => false,
        },
        None => false,
    }
}

/// NdisMDeregisterInterrupt (14).
pub fn deregister_interrupt(
    alloc: Global,
    world: &mut World,
    caller: &Caller,
    words: &[u32; 8],
) -> Result<Answer, CallRefusal>
    requires { IsNumber caller.now.adapter }
    ensures { Comes (resources.deregister_interrupt world.old caller.now words.now) world.old result world.new }
{
    let Some(a) = caller.adapter else {
        return Err(ARGUMENTS_RULE);
    };
    if !is_interrupt(world, caller.adapter, words[0]) {
        return Err(ARGUMENTS_RULE);
    }
    world.set_interrupt(a, None);
    Ok(done(alloc))
}

/// NdisMSynchronizeWithInterrupt (15).
pub fn synchronize(world: &World, caller: &Caller, words: &[u32; 8]) -> Result<Answer, CallRefusal>
    requires { IsNumber caller.now.adapter }
    ensures { Comes (resources.synchronize world.now caller.now words.now) world.now result world.now }
{
    if !is_interrupt(world, caller.adapter, words[0]) || !is_function(words[1]) {
        return Err(ARGUMENTS_RULE);
    }
    Ok(Answer::Sync)
}
