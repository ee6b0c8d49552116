//! Numbers in guest memory.

ghost use Rattle.std.specs.Prelude.{◌≡◌, true, is_none};
ghost use Rattle.std.specs.FinMap as map;
ghost use Rattle.nd_mem.specs.Space.{first_fault, Reading};
ghost use Rattle.import_answers.specs.Outcomes as outcomes;

use nd_base::Addr;
use nd_mem::Memory;

/// The number of two bytes at an address, its low byte first.
pub fn half_at(memory: &Memory, at: u32) -> u16
    requires { is_none (first_fault Reading (map.get memory.now) at 2) ≡ true }
    ensures { result ≡ outcomes.half_at (map.get memory.now) at }
{
    let mut two = [0; 2];
    match memory.read(Addr(at), &mut two) {
        Ok(()) => u16::from_le_bytes(two),
        Err(_) => unreachable!(),
    }
}
