//! An adapter's ports.

ghost use Rattle.std.specs.Prelude.{◌≡◌};
ghost use Rattle.import_answers.specs.World.{IsNumber};
ghost use Rattle.import_answers.specs.Outcomes.{Comes};
ghost use Rattle.import_answers.specs.Resources as resources;

use call_parts::{FAILURE, SUCCESS, hardware_of};
use call_replies::{ARGUMENTS_RULE, can_write, done, is_adapter_handle, put_word, returns, writes};
use guest_world::{Answer, CallRefusal, Caller, World};
use log_fields::Writes;
use std::alloc::Global;

/// How many ports an NE2000 has.
const PORTS: u64 = 32;

/// Whether a range of ports lies in those that an adapter has from its first one on.
fn is_port_range(first: u16, port: u32, count: u32) -> bool
    ensures { result ≡ resources.is_port_range first port count }
{
    let first = u64::from(first);
    let port = u64::from(port);
    first <= port && port + u64::from(count) <= first + PORTS
}

/// NdisMRegisterIoPortRange (11).
pub fn register_ports(
    alloc: Global,
    world: &World,
    caller: &Caller,
    words: &[u32; 8],
) -> Result<Answer, CallRefusal>
    requires { IsNumber caller.now.adapter }
    ensures { Comes (resources.register_ports world.now caller.now words.now) world.now result world.now }
{
    if !is_adapter_handle(caller.adapter, words[1]) {
        return Err(ARGUMENTS_RULE);
    }
    let hardware = hardware_of(world, caller.adapter);
    if !is_port_range(hardware.port, words[2], words[3]) {
        return Ok(returns(alloc, FAILURE));
    }
    if !can_write(world, words[0], 4) {
        return Err(ARGUMENTS_RULE);
    }
    let mut made = Writes::new(alloc);
    put_word(alloc, &mut made, words[0], words[2])?;
    Ok(writes(alloc, SUCCESS, made))
}

/// NdisMDeregisterIoPortRange (12).
pub fn deregister_ports(
    alloc: Global,
    world: &World,
    caller: &Caller,
    words: &[u32; 8],
) -> Result<Answer, CallRefusal>
    requires { IsNumber caller.now.adapter }
    ensures { Comes (resources.deregister_ports world.now caller.now words.now) world.now result world.now }
{
    let _world = world;
    if !is_adapter_handle(caller.adapter, words[0]) {
        return Err(ARGUMENTS_RULE);
    }
    Ok(done(alloc))
}
