//! Fields of descriptors in guest memory, and which descriptors are live.

ghost use Rattle.std.specs.Prelude.{◌≡◌, ◌<◌, ◌^◌, ◌&&◌, ◌||◌, None, Some, IfSome, if◌then◌else◌};
ghost use Rattle.import_answers.specs.Outcomes.{can_write, word_of, field_of};
ghost use Rattle.import_answers.specs.Descriptors.{can_read_field, count_of, next_of, is_live, is_in_slot, total_from};
ghost use Rattle.nd_base.specs.declared.layout_field.Field.TheVariants.{BufferCount, BufferNext};

use call_replies::word_at;
use guest_map::SEND_SLOTS;
use guest_world::World;
use nd_base::{Addr, Field};
use packet_pool::Kind;

/// How many bytes a send slot has.
const SLOT_BYTES: u32 = 0x800;

/// The most buffers of a chain.
const BUFFERS: u32 = 64;

/// Where an object has a field.
pub(crate) fn place_of(world: &World, field: Field, object: u32) -> u32
    ensures { result ≡ field_of world.now field object }
{
    object.wrapping_add(world.layout.offset(field))
}

/// The number in a field of an object, if it can be read.
pub(crate) fn field_in(world: &World, field: Field, object: u32) -> Option<u32>
    ensures { result ≡ (if can_read_field world.now field object then Some (word_of world.now (field_of world.now field object)) else None) }
{
    word_at(world, place_of(world, field, object))
}

/// Whether the descriptor of a kind stands at this address in a send slot.
fn is_in_slot(kind: Kind, at: u32) -> bool
    ensures { result ≡ is_in_slot kind at }
{
    let offset = match kind {
        Kind::Packet => 0,
        Kind::Buffer => 128,
    };
    let first = SEND_SLOTS.first.0;
    first <= at && at - first < SEND_SLOTS.length && (at - first) % SLOT_BYTES == offset
}

/// Whether a descriptor of a kind counts as live: it is out of its pool, or stands in a send slot.
pub(crate) fn is_live(world: &World, kind: Kind, at: u32) -> bool
    ensures { result ≡ is_live world.now kind at }
{
    let out = match kind {
        Kind::Packet => world.pools.has_packet(Addr(at)),
        Kind::Buffer => world.pools.has_buffer(Addr(at)),
    };
    out || is_in_slot(kind, at)
}

/// A buffer's count, and the buffer that it names as its next, if both can be read.
fn count_and_next(world: &World, buffer: u32) -> Option<(u32, u32)>
    ensures small { IfSome result (λ found. found.0 < 2 ^ 32) }
    ensures found { result ≡ (if can_read_field world.now BufferCount buffer && can_read_field world.now BufferNext buffer then Some (count_of world.now buffer, next_of world.now buffer) else None) }
{
    let count = field_in(world, Field::BufferCount, buffer)?;
    let next = field_in(world, Field::BufferNext, buffer)?;
    Some((count, next))
}

/// The counts of a chain's buffers, summed: none where a buffer can't be read, or there are more
/// than 64.
pub(crate) fn total_from(world: &World, first: u32) -> Option<u64>
    ensures { result ≡ total_from world.now first 64 }
{
    let mut buffer = first;
    let mut total = 0;
    for _taken in 0..BUFFERS {
        if buffer == 0 {
            return Some(total);
        }
        match count_and_next(world, buffer) {
            Some((count, next)) => {
                total += u64::from(count);
                buffer = next;
            }
            None => return None,
        }
    }
    if buffer == 0 { Some(total) } else { None }
}
