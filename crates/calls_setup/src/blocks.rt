//! Blocks of the guest pool that a call gives.

ghost use Rattle.std.specs.Prelude.{◌≡◌, true};
ghost use Rattle.packet_pool.specs.LiveMoves.{FreeBlock, may, after};
ghost use Rattle.calls_setup.specs.Blocks.{GivesBlock, IsMade};

use call_replies::ARGUMENTS_RULE;
use guest_world::CallRefusal;
use nd_base::Addr;
use packet_pool::{PoolRefusal, Pools, room_laws};

/// Gives a block back of which the call makes no use.
pub fn give_up(pools: &mut Pools, block: Addr)
    requires { may pools.old (FreeBlock block.0) ≡ true }
    ensures { pools.new ≡ after pools.old (FreeBlock block.0) }
{
    match pools.free_block(block) {
        Ok(()) => (),
        Err(_) => unreachable!(),
    }
}

/// A block of so many bytes, if the place for its address can be written. Without room there is
/// none.
pub fn block_for(
    pools: &mut Pools,
    length: u32,
    writable: bool,
) -> Result<Option<Addr>, CallRefusal>
    ensures { GivesBlock pools.old length writable result pools.new }
{
    room_laws();
    match pools.alloc_block(length) {
        Ok(at) => {
            if writable {
                return Ok(Some(at));
            }
            give_up(pools, at);
            Err(ARGUMENTS_RULE)
        }
        Err(PoolRefusal::NoRoom) => Ok(None),
        Err(_) => {
            if writable {
                Err(CallRefusal::OutOfMemory)
            } else {
                Err(ARGUMENTS_RULE)
            }
        }
    }
}
