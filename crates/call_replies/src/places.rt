//! Places of guest memory that a call names, and handles.

ghost use Rattle.std.specs.Prelude.{◌≡◌, None, Some, if◌then◌else◌};
ghost use Rattle.import_answers.specs.World.{is_adapter_handle, IsNumber};
ghost use Rattle.import_answers.specs.Outcomes.{can_read, can_write, word_of};

use guest_map::adapter_block;
use guest_world::World;
use nd_base::{AdapterNo, Addr};
use nd_mem::Purpose;

/// Whether so many bytes can be read.
pub fn can_read(world: &World, at: u32, count: u32) -> bool
    ensures { result ≡ can_read world.now at count }
{
    world.memory.fault(Purpose::Read, Addr(at), count).is_none()
}

/// Whether so many bytes can be written.
pub fn can_write(world: &World, at: u32, count: u32) -> bool
    ensures { result ≡ can_write world.now at count }
{
    world
        .memory
        .fault(Purpose::Write, Addr(at), count)
        .is_none()
}

/// The number of four bytes at an address, its low byte first, if they can be read.
#[tactic(auto, unfolding(packet_chain::specs::Chain::word_at))]
pub fn word_at(world: &World, at: u32) -> Option<u32>
    ensures { result ≡ (if can_read world.now at 4 then Some (word_of world.now at) else None) }
{
    let mut four = [0; 4];
    match world.memory.read(Addr(at), &mut four) {
        Ok(()) => Some(u32::from_le_bytes(four)),
        Err(_) => None,
    }
}

/// Whether a handle is that of the caller's own adapter.
pub fn is_adapter_handle(adapter: Option<AdapterNo>, handle: u32) -> bool
    requires { IsNumber adapter }
    ensures { result ≡ is_adapter_handle adapter handle }
{
    match adapter {
        Some(a) => handle == adapter_block(a).first.0,
        None => false,
    }
}
