//! An adapter's configuration, and its resources.

ghost use Rattle.std.specs.Prelude.{◌≡◌};
ghost use Rattle.import_answers.specs.World.{IsNumber, params_in};
ghost use Rattle.import_answers.specs.Outcomes.{Comes};
ghost use Rattle.import_answers.specs.Configuration as configuration;
ghost use Rattle.calls_setup.specs.Adapters.{adapter_in};

use crate::given::{given_address, given_value, without_value};
use crate::keywords::{Counted, asked_value};
use crate::resource_list::resource_list;
use crate::station_address::network_address;
use call_parts::{
    FAILURE, RESOURCES, SUCCESS, hardware_of, is_configuration_context, is_configuration_handle,
    with_words,
};
use call_replies::{
    ARGUMENTS_RULE, can_read, can_write, done, put_bytes, put_word, word_at, writes,
};
use guest_map::configuration_handle;
use guest_world::{ADAPTERS, Adapter, Answer, CallRefusal, Caller, World};
use inf_file::Param;
use log_fields::Writes;
use nd_base::AdapterNo;
use std::alloc::Global;

/// The parameters of the caller's adapter.
fn params_of(adapters: &[Option<Adapter>; ADAPTERS], adapter: Option<AdapterNo>) -> &[Param]
    requires { IsNumber adapter }
    ensures { result.now ≡ params_in (adapter_in adapters.now adapter) }
{
    let Some(a) = adapter else {
        return &[];
    };
    match &adapters[usize::from(a.0)] {
        Some(adapter) => adapter.params.as_slice(),
        None => &[],
    }
}

/// NdisOpenConfiguration (7).
pub fn open_configuration(
    alloc: Global,
    world: &mut World,
    caller: &Caller,
    words: &[u32; 8],
) -> Result<Answer, CallRefusal>
    requires { IsNumber caller.now.adapter }
    ensures { Comes (configuration.open_configuration world.old caller.now words.now) world.old result world.new }
{
    if !can_write(world, words[0], 4)
        || !can_write(world, words[1], 4)
        || !is_configuration_context(caller.adapter, words[2])
    {
        return Err(ARGUMENTS_RULE);
    }
    let Some(a) = caller.adapter else {
        return Err(ARGUMENTS_RULE);
    };
    let answer = with_words(
        alloc,
        &[(words[0], SUCCESS), (words[1], configuration_handle(a))],
    )?;
    world.open_configuration(a);
    Ok(answer)
}

/// NdisCloseConfiguration (9).
pub fn close_configuration(
    alloc: Global,
    world: &World,
    caller: &Caller,
    words: &[u32; 8],
) -> Result<Answer, CallRefusal>
    requires { IsNumber caller.now.adapter }
    ensures { Comes (configuration.close_configuration world.now caller.now words.now) world.now result world.now }
{
    if !is_configuration_handle(world, caller.adapter, words[0]) {
        return Err(ARGUMENTS_RULE);
    }
    Ok(done(alloc))
}

/// NdisReadConfiguration (8).
pub fn read_configuration(
    alloc: Global,
    world: &mut World,
    caller: &Caller,
    words: &[u32; 8],
) -> Result<Answer, CallRefusal>
    requires { IsNumber caller.now.adapter }
    ensures { Comes (configuration.read_configuration world.old caller.now words.now) world.old result world.new }
{
    if !can_write(world, words[0], 4)
        || !is_configuration_handle(world, caller.adapter, words[2])
        || !can_read(world, words[3], 8)
    {
        return Err(ARGUMENTS_RULE);
    }
    let keyword = Counted::at(world, words[3]);
    if keyword.length % 2 != 0 {
        return without_value(alloc, words, FAILURE);
    }
    if !can_read(world, keyword.characters, u32::from(keyword.length)) {
        return Err(ARGUMENTS_RULE);
    }
    let writable = can_write(world, words[1], 4);
    let params = params_of(&world.adapters, caller.adapter);
    let value = asked_value(&world.memory, params, keyword, words[4]);
    given_value(alloc, &mut world.pools, words, writable, value)
}

/// NdisReadNetworkAddress (10).
pub fn read_network_address(
    alloc: Global,
    world: &mut World,
    caller: &Caller,
    words: &[u32; 8],
) -> Result<Answer, CallRefusal>
    requires { IsNumber caller.now.adapter }
    ensures { Comes (configuration.read_network_address world.old caller.now words.now) world.old result world.new }
{
    if !can_write(world, words[0], 4) || !is_configuration_handle(world, caller.adapter, words[3]) {
        return Err(ARGUMENTS_RULE);
    }
    let writable = can_write(world, words[1], 4) && can_write(world, words[2], 4);
    let address = network_address(params_of(&world.adapters, caller.adapter));
    given_address(alloc, &mut world.pools, words, writable, address)
}

/// NdisMQueryAdapterResources (51).
pub fn query_resources(
    alloc: Global,
    world: &World,
    caller: &Caller,
    words: &[u32; 8],
) -> Result<Answer, CallRefusal>
    requires { IsNumber caller.now.adapter }
    ensures { Comes (configuration.query_resources world.now caller.now words.now) world.now result world.now }
{
    if !can_write(world, words[0], 4) || !is_configuration_context(caller.adapter, words[1]) {
        return Err(ARGUMENTS_RULE);
    }
    let Some(size) = word_at(world, words[3]) else {
        return Err(ARGUMENTS_RULE);
    };
    if size < 40 {
        if !can_write(world, words[3], 4) {
            return Err(ARGUMENTS_RULE);
        }
        return with_words(alloc, &[(words[0], RESOURCES), (words[3], 40)]);
    }
    if !can_write(world, words[2], 40) {
        return Err(ARGUMENTS_RULE);
    }
    let list = resource_list(hardware_of(world, caller.adapter));
    let mut made = Writes::new(alloc);
    put_word(alloc, &mut made, words[0], SUCCESS)?;
    put_bytes(alloc, &mut made, words[2], &list)?;
    Ok(writes(alloc, 0, made))
}
