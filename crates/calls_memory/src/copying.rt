//! Bytes that are copied, the first of them first.

ghost use Rattle.std.specs.Prelude.{◌≡◌, ◌≤◌, ◌<◌, ◌-◌, length, None};
ghost use Rattle.std.specs.FinMap as map;
ghost use Rattle.nd_mem.specs.Space.{first_fault, bytes_from, Reading, Writing};
ghost use Rattle.import_answers.specs.Blocks.{copied};
ghost use Rattle.calls_memory.specs.Copying.{Repeats};

use nd_base::Addr;
use nd_mem::{Memory, fault_laws, read_laws, write_laws};

/// Each byte from a distance on becomes the one that stands that far in front of it, the first of
/// them first.
fn repeat(bytes: &mut [u8], distance: usize)
    requires { 1 ≤ distance }
    ensures { Repeats distance bytes.old bytes.new }
{
    for place in distance..bytes.len() {
        bytes[place] = bytes[place - distance];
    }
}

/// The bytes that were read from `from`, once they were written at `to` one after the other, each
/// before the next was read.
fn repeat_behind(bytes: &mut [u8], to: u32, from: u32)
    ensures repeats { from < to → Repeats (to - from) bytes.old bytes.new }
    ensures same { to ≤ from → bytes.new ≡ bytes.old }
{
    if from < to {
        repeat(bytes, (to - from) as usize);
    }
}

/// The bytes that stand at `to` once as many as there is room for were copied there from `from`.
pub(crate) fn copy_forward(memory: &Memory, to: u32, from: u32, bytes: &mut [u8])
    requires read { first_fault Reading (map.get memory.now) from (length bytes.old) ≡ None }
    requires written { first_fault Writing (map.get memory.now) to (length bytes.old) ≡ None }
    ensures { bytes.new ≡ bytes_from (map.get (copied memory.now to from (length bytes.old))) to (length bytes.old) }
{
    fault_laws();
    read_laws();
    write_laws();
    match memory.read(Addr(from), bytes) {
        Ok(()) => repeat_behind(bytes, to, from),
        Err(_) => unreachable!(),
    }
}
