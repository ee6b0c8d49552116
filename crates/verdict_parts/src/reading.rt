//! What is read of guest memory.

ghost use Rattle.std.specs.Prelude.{◌≡◌, None, IfOk};
ghost use Rattle.std.specs.FinMap as map;
ghost use Rattle.nd_mem.specs.Space.{first_fault, bytes_from, Reading};
ghost use Rattle.packet_chain.specs.Chain.{word_at};

use nd_base::{Addr, OutOfMemory};
use nd_mem::Memory;
use std::alloc::Global;

/// The number of four bytes at an address, its low byte first. They can be read.
#[tactic(auto, unfolding(packet_chain::specs::Chain::word_at))]
pub fn word_at(memory: &Memory, at: u32) -> u32
    requires { first_fault Reading (map.get memory.now) at 4 ≡ None }
    ensures { result ≡ word_at (map.get memory.now) at }
{
    let mut four = [0; 4];
    match memory.read(Addr(at), &mut four) {
        Ok(()) => u32::from_le_bytes(four),
        Err(_) => unreachable!(),
    }
}

/// So many bytes at an address, which can be read.
///
/// # Errors
/// [`OutOfMemory`] where no memory is left.
pub fn bytes_at(alloc: Global, memory: &Memory, at: u32, count: u32) -> Result<Vec<u8>, OutOfMemory>
    requires { first_fault Reading (map.get memory.now) at count ≡ None }
    ensures { IfOk result (λ bytes. bytes.items ≡ bytes_from (map.get memory.now) at count) }
{
    let mut bytes = vec![in alloc; 0; count as usize]?;
    match memory.read(Addr(at), &mut bytes) {
        Ok(()) => Ok(bytes),
        Err(_) => unreachable!(),
    }
}
