//! What calls give of parameters: in a block of the guest pool, whose address they write.

ghost use Rattle.std.specs.Prelude.{◌≡◌, ◌<◌, ◌+◌, ◌^◌, ◌&&◌, [], ◌∷◌};
ghost use Rattle.std.specs.Option.{ForSome};
ghost use Rattle.guest_world.specs.declared.world.World.{World};
ghost use Rattle.import_answers.specs.World.{word};
ghost use Rattle.import_answers.specs.Outcomes.{Comes, can_write, plain, written, word_written};
ghost use Rattle.import_answers.specs.Configuration as configuration;
ghost use Rattle.call_parts.specs.Answered.{Answers, words_written};
ghost use Rattle.calls_setup.specs.Values.{read_in, read_in_some, IsShort};

use crate::blocks::{block_for, give_up};
use crate::values::{Value, block_bytes};
use call_parts::{FAILURE, RESOURCES, SUCCESS, put_words, with_words};
use call_replies::{put_bytes, writes};
use guest_world::{Answer, CallRefusal};
use log_fields::Writes;
use nd_base::Addr;
use packet_pool::Pools;
use std::alloc::Global;

/// The answer of a call that gives a status and no value.
pub fn without_value(alloc: Global, words: &[u32; 8], status: u32) -> Result<Answer, CallRefusal>
    ensures { Answers (plain 0 (word_written (word words.now 1) status ∷ [])) result }
{
    with_words(alloc, &[(words[0], status)])
}

/// The answer that gives a block with these bytes.
fn with_block(
    alloc: Global,
    block: Addr,
    bytes: &[u8],
    words: &[(u32, u32)],
) -> Result<Answer, CallRefusal>
    ensures { Answers (plain 0 (written block.0 bytes.now ∷ words_written words.now)) result }
{
    let mut list = Writes::new(alloc);
    put_bytes(alloc, &mut list, block.0, bytes)?;
    put_words(alloc, &mut list, words)?;
    Ok(writes(alloc, 0, list))
}

/// The answer that gives a value in a block.
fn with_value(
    alloc: Global,
    words: &[u32; 8],
    value: Value,
    block: Addr,
) -> Result<Answer, CallRefusal>
    requires readable { IsShort value }
    requires low { block.0 + 12 < 2 ^ 32 }
    ensures { Answers (configuration.value_reply words.now (read_in value.entry) block.0) result }
{
    let Ok(bytes) = block_bytes(alloc, words[4], value, block.0) else {
        return Err(CallRefusal::OutOfMemory);
    };
    with_block(
        alloc,
        block,
        bytes.as_slice(),
        &[(words[0], SUCCESS), (words[1], block.0)],
    )
}

/// What NdisReadConfiguration gives of a parameter that was found, or of none; writable says
/// whether the place of the value can be written.
pub fn given_value(
    alloc: Global,
    pools: &mut Pools,
    words: &[u32; 8],
    writable: bool,
    value: Option<Value>,
) -> Result<Answer, CallRefusal>
    requires { ForSome value IsShort }
    ensures { (w : World) → w.pools ≡ pools.old → can_write w (word words.now 2) 4 ≡ writable → Comes (configuration.given_value w words.now (read_in_some value.entry)) w result (record w { pools = pools.new }) }
{
    let Some(value) = value else {
        return without_value(alloc, words, FAILURE);
    };
    let Some(block) = block_for(pools, value.block_length(), writable)? else {
        return without_value(alloc, words, RESOURCES);
    };
    match with_value(alloc, words, value, block) {
        Ok(answer) => Ok(answer),
        Err(refusal) => {
            give_up(pools, block);
            Err(refusal)
        }
    }
}

/// What NdisReadNetworkAddress gives of an address, or of none; writable says whether the places of
/// its own address and of its length can be written.
pub fn given_address(
    alloc: Global,
    pools: &mut Pools,
    words: &[u32; 8],
    writable: bool,
    address: Option<[u8; 6]>,
) -> Result<Answer, CallRefusal>
    ensures { (w : World) → w.pools ≡ pools.old → (can_write w (word words.now 2) 4 && can_write w (word words.now 3) 4) ≡ writable → Comes (configuration.given_address w words.now address) w result (record w { pools = pools.new }) }
{
    let Some(address) = address else {
        return without_value(alloc, words, FAILURE);
    };
    let Some(block) = block_for(pools, 6, writable)? else {
        return without_value(alloc, words, RESOURCES);
    };
    let places = [(words[0], SUCCESS), (words[1], block.0), (words[2], 6)];
    match with_block(alloc, block, &address, &places) {
        Ok(answer) => Ok(answer),
        Err(refusal) => {
            give_up(pools, block);
            Err(refusal)
        }
    }
}
