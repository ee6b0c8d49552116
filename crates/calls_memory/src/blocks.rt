//! Blocks of the guest pool.

ghost use Rattle.std.specs.Prelude.{◌≡◌, ◌≤◌, [], ◌∷◌, ◌++◌, length, OnOk, IfOk, IfErr};
ghost use Rattle.import_answers.specs.Statuses.{success};
ghost use Rattle.import_answers.specs.Blocks.{allocate_memory, free_memory, zeros_written};
ghost use Rattle.import_answers.specs.Outcomes.{Comes, plain, word_written};

use call_replies::{
    ARGUMENTS_RULE, can_write, done, filled, put_some, put_word, undo_laws, writes,
};
use guest_world::{Answer, CallRefusal, World};
use log_fields::Writes;
use nd_base::Addr;
use packet_pool::PoolRefusal;
use std::alloc::Global;

const SUCCESS: u32 = 0;

const FAILURE: u32 = 0xC000_0001;

/// The reply with a status, and the write of a number.
fn with_word(alloc: Global, status: u32, at: u32, value: u32) -> Result<Answer, CallRefusal>
    ensures ok { IfOk result (λ answer. answer ≡ Answer.Now (plain status (word_written at value ∷ []))) }
    ensures err { IfErr result (λ e. e ≡ CallRefusal.OutOfMemory) }
{
    let mut list = Writes::new(alloc);
    put_word(alloc, &mut list, at, value)?;
    Ok(writes(alloc, status, list))
}

/// The reply with a new block: its zeros, and the write of its address.
fn with_block(alloc: Global, block: u32, count: u32, at: u32) -> Result<Answer, CallRefusal>
    ensures ok { IfOk result (λ answer. answer ≡ Answer.Now (plain success (zeros_written block count ++ word_written at block ∷ []))) }
    ensures err { IfErr result (λ e. e ≡ CallRefusal.OutOfMemory) }
{
    let mut list = Writes::new(alloc);
    put_zeros(alloc, &mut list, block, count)?;
    put_word(alloc, &mut list, at, block)?;
    Ok(writes(alloc, SUCCESS, list))
}

/// Puts the write of so many zeros behind the others.
fn put_zeros(alloc: Global, list: &mut Writes, at: u32, count: u32) -> Result<(), CallRefusal>
    ensures ok { OnOk result (list.new ≡ list.old ++ zeros_written at count) }
    ensures err { IfErr result (λ e. e ≡ CallRefusal.OutOfMemory) }
{
    let Ok(zeros) = filled(alloc, 0, count) else {
        return Err(CallRefusal::OutOfMemory);
    };
    put_some(alloc, list, at, &zeros)
}

/// NdisAllocateMemoryWithTag, import 21: a block of zeros, whose address is written; FAILURE and 0
/// where there is no room. Where memory is wanted behind it, the block is freed again.
pub fn allocate_memory(
    alloc: Global,
    world: &mut World,
    words: &[u32],
) -> Result<Answer, CallRefusal>
    requires { 3 ≤ length words.now }
    ensures { Comes (allocate_memory world.old words.now) world.old result world.new }
{
    undo_laws();
    let (at, count) = (words[0], words[1]);
    if !can_write(world, at, 4) {
        return Err(ARGUMENTS_RULE);
    }
    let block = match world.pools.alloc_block(count) {
        Ok(block) => block,
        Err(PoolRefusal::OutOfMemory) => return Err(CallRefusal::OutOfMemory),
        Err(_) => return with_word(alloc, FAILURE, at, 0),
    };
    match with_block(alloc, block.0, count, at) {
        Ok(answer) => Ok(answer),
        Err(_) => {
            let _freed = world.pools.free_block(block);
            Err(CallRefusal::OutOfMemory)
        }
    }
}

/// NdisFreeMemory, import 22: frees a block.
pub fn free_memory(alloc: Global, world: &mut World, words: &[u32]) -> Result<Answer, CallRefusal>
    requires { 3 ≤ length words.now }
    ensures { Comes (free_memory world.old words.now) world.old result world.new }
{
    match world.pools.free_block(Addr(words[0])) {
        Ok(()) => Ok(done(alloc)),
        Err(broken) => Err(CallRefusal::Broken(broken)),
    }
}
