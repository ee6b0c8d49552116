//! Calls that write many bytes.

ghost use Rattle.std.specs.Prelude.{◌≤◌, length};
ghost use Rattle.import_answers.specs.Blocks.{copy_memory, set_memory};
ghost use Rattle.import_answers.specs.Outcomes.{Comes};

use crate::copying::copy_forward;
use call_replies::{ARGUMENTS_RULE, can_read, can_write, filled, moved};
use guest_world::{Answer, CallRefusal, World};
use std::alloc::Global;

/// memcpy, import 62: copies bytes, the first of them first; EAX is where they are copied to.
pub fn copy_memory(alloc: Global, world: &mut World, words: &[u32]) -> Result<Answer, CallRefusal>
    requires { 3 ≤ length words.now }
    ensures { Comes (copy_memory world.old words.now) world.old result world.new }
{
    let (to, from, count) = (words[0], words[1], words[2]);
    if !can_write(world, to, count) || !can_read(world, from, count) {
        return Err(ARGUMENTS_RULE);
    }
    let Ok(mut bytes) = filled(alloc, 0, count) else {
        return Err(CallRefusal::OutOfMemory);
    };
    copy_forward(&world.memory, to, from, &mut bytes);
    moved(alloc, to, to, &bytes)
}

/// memset, import 63: sets bytes to the low byte of a word; EAX is where they stand.
pub fn set_memory(alloc: Global, world: &mut World, words: &[u32]) -> Result<Answer, CallRefusal>
    requires { 3 ≤ length words.now }
    ensures { Comes (set_memory world.old words.now) world.old result world.new }
{
    let (to, count) = (words[0], words[2]);
    if !can_write(world, to, count) {
        return Err(ARGUMENTS_RULE);
    }
    let byte = (words[1] % 256) as u8;
    let Ok(bytes) = filled(alloc, byte, count) else {
        return Err(CallRefusal::OutOfMemory);
    };
    moved(alloc, to, to, &bytes)
}
