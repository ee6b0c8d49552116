//! The wrapper, the miniport, and an adapter's attributes.

ghost use Rattle.std.specs.Prelude.{◌≡◌};
ghost use Rattle.import_answers.specs.World.{IsNumber};
ghost use Rattle.import_answers.specs.Outcomes.{Comes};
ghost use Rattle.import_answers.specs.Registration as registration;

use crate::characteristics::judged;
use call_parts::{FAILURE, SUCCESS, with_words};
use call_replies::{ARGUMENTS_RULE, can_read, can_write, done, is_adapter_handle, returns};
use guest_map::WRAPPER;
use guest_world::{Answer, Attributes, CallRefusal, Caller, World};
use log_fields::Handler;
use std::alloc::Global;

/// 86,400 seconds, in microseconds.
const LONGEST_TIME: u64 = 86_400_000_000;

/// A hang check every 2 seconds, where no period is given.
const USUAL_PERIOD: u64 = 2_000_000;

/// NDIS_ATTRIBUTE_DESERIALIZE.
const DESERIALIZE: u32 = 0x20;

/// NdisInitializeWrapper (1).
pub fn initialize_wrapper(
    alloc: Global,
    world: &World,
    words: &[u32; 8],
) -> Result<Answer, CallRefusal>
    ensures { Comes (registration.initialize_wrapper world.now words.now) world.now result world.now }
{
    if !can_write(world, words[0], 4) {
        return Err(ARGUMENTS_RULE);
    }
    with_words(alloc, &[(words[0], WRAPPER)])
}

/// NdisTerminateWrapper (2).
pub fn terminate_wrapper(
    alloc: Global,
    world: &World,
    words: &[u32; 8],
) -> Result<Answer, CallRefusal>
    ensures { Comes (registration.terminate_wrapper world.now words.now) world.now result world.now }
{
    let (_world, _words) = (world, words);
    Ok(done(alloc))
}

/// NdisMRegisterMiniport (3).
pub fn register_miniport(
    alloc: Global,
    world: &mut World,
    caller: &Caller,
    words: &[u32; 8],
) -> Result<Answer, CallRefusal>
    ensures { Comes (registration.register_miniport world.old caller.now words.now) world.old result world.new }
{
    let in_driver_entry = matches!(caller.handler, Handler::DriverEntry);
    if !in_driver_entry || world.miniport.is_some() {
        return Ok(returns(alloc, FAILURE));
    }
    let (at, length) = (words[1], words[2]);
    if !can_read(world, at, length.max(2)) {
        return Err(ARGUMENTS_RULE);
    }
    match judged(world, at, length) {
        Ok(miniport) => {
            world.miniport = Some(miniport);
            Ok(returns(alloc, SUCCESS))
        }
        Err(status) => Ok(returns(alloc, status)),
    }
}

/// The period of hang checks, in microseconds.
fn hang_period(seconds: u32) -> u64
    ensures { result ≡ registration.hang_period seconds }
{
    if seconds == 0 {
        USUAL_PERIOD
    } else {
        (u64::from(seconds) * 1_000_000).min(LONGEST_TIME)
    }
}

/// Whether an adapter's handlers may overlap.
fn is_deserialized(flags: u32) -> bool
    ensures { result ≡ registration.is_deserialized flags }
{
    flags / DESERIALIZE % 2 > 0
}

/// NdisMSetAttributesEx (6).
pub fn set_attributes(
    alloc: Global,
    world: &mut World,
    caller: &Caller,
    words: &[u32; 8],
) -> Result<Answer, CallRefusal>
    requires { IsNumber caller.now.adapter }
    ensures { Comes (registration.set_attributes world.old caller.now words.now) world.old result world.new }
{
    if !is_adapter_handle(caller.adapter, words[0]) {
        return Err(ARGUMENTS_RULE);
    }
    if let (Some(a), Handler::Initialize) = (caller.adapter, caller.handler) {
        let given = Attributes {
            context: words[1],
            hang_period: hang_period(words[2]),
            deserialized: is_deserialized(words[3]),
        };
        world.set_attributes(a, given);
    }
    Ok(done(alloc))
}
