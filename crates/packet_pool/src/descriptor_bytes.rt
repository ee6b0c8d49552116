//! New descriptors in guest memory.

ghost use Rattle.std.specs.Prelude.{◌≡◌, ◌≤◌, length};
ghost use Rattle.std.specs.FinMap as map;
ghost use Rattle.nd_base.specs.Layout.{width_of, limit, object_of, offset_of};
ghost use Rattle.nd_mem.specs.Space.{put_from};
ghost use Rattle.packet_pool.specs.DescriptorBytes.{with_bytes, packet_bytes, buffer_bytes, HasGuestPool};
ghost use Rattle.packet_pool.specs.LiveSet.{descriptor_size};
ghost use Rattle.packet_pool.specs.declared.states.Kind.TheVariants.{Packet, Buffer};
ghost use Rattle.guest_map.specs.Regions.{region, IsInside};
ghost use Rattle.guest_map.specs.Regions as guest;

use nd_base::{Addr, Field, Layout};
use nd_mem::{Memory, fault_laws};

/// How many bytes a packet descriptor has.
pub const PACKET_BYTES: usize = 128;

/// How many bytes a buffer descriptor has.
pub const BUFFER_BYTES: usize = 32;

/// Where a packet's out-of-band part stands.
const OUT_OF_BAND: u16 = 72;

/// The flags of a buffer.
const BUFFER_FLAGS: u16 = 4;

/// The bytes of a page.
const PAGE: u32 = 4096;

/// Puts bytes into a field of an object.
fn put(bytes: &mut [u8], layout: &Layout, field: Field, new: &[u8])
    requires width { length new.now ≤ width_of field }
    requires object { limit (object_of field) ≤ length bytes.old }
    ensures { bytes.new ≡ with_bytes bytes.old (offset_of layout.now field) new.now }
{
    let at = layout.offset(field) as usize;
    bytes[at..at + new.len()].copy_from_slice(new);
}

/// The bytes of a new packet.
#[tactic(auto, unfolding(crate::specs::DescriptorBytes::packet_bytes, nd_base::specs::Layout::row, nd_base::specs::Layout::rows))]
pub fn packet_bytes(layout: &Layout) -> [u8; PACKET_BYTES]
    ensures { result ≡ packet_bytes layout.now }
{
    let mut bytes = [0; PACKET_BYTES];
    let field = Field::PacketOobOffset;
    put(&mut bytes, layout, field, &OUT_OF_BAND.to_le_bytes());
    bytes
}

/// The bytes of a new buffer for so many bytes at an address.
#[tactic(auto, unfolding(crate::specs::DescriptorBytes::buffer_bytes, nd_base::specs::Layout::row, nd_base::specs::Layout::rows))]
pub fn buffer_bytes(layout: &Layout, at: Addr, count: u32) -> [u8; BUFFER_BYTES]
    ensures { result ≡ buffer_bytes layout.now at.0 count }
{
    let size = (BUFFER_BYTES as u16).to_le_bytes();
    let flags = BUFFER_FLAGS.to_le_bytes();
    let mapped = at.0.to_le_bytes();
    let start = (at.0 / PAGE * PAGE).to_le_bytes();
    let offset = (at.0 % PAGE).to_le_bytes();
    let mut bytes = [0; BUFFER_BYTES];
    put(&mut bytes, layout, Field::BufferSize, &size);
    put(&mut bytes, layout, Field::BufferFlags, &flags);
    put(&mut bytes, layout, Field::BufferMapped, &mapped);
    put(&mut bytes, layout, Field::BufferStart, &start);
    put(&mut bytes, layout, Field::BufferCount, &count.to_le_bytes());
    put(&mut bytes, layout, Field::BufferOffset, &offset);
    bytes
}

/// A new packet is written as 128 bytes, those of its descriptor.
pub fn packet_size(layout: &Layout)
    ensures { length (packet_bytes layout.now) ≡ descriptor_size Packet }
{
    let _bytes = packet_bytes(layout);
}

/// A new buffer is written as 32 bytes, those of its descriptor.
pub fn buffer_size(layout: &Layout, at: Addr, count: u32)
    ensures { length (buffer_bytes layout.now at.0 count) ≡ descriptor_size Buffer }
{
    let _bytes = buffer_bytes(layout, at, count);
}

/// Writes a new descriptor into the guest pool.
pub(crate) fn write_new(memory: &mut Memory, at: Addr, bytes: &[u8])
    requires pool { HasGuestPool (map.get memory.old) }
    requires inside { IsInside (region at.0 (length bytes.now)) guest.pool }
    ensures written { memory.new ≡ put_from memory.old at.0 bytes.now }
    ensures pool { HasGuestPool (map.get memory.new) }
{
    fault_laws();
    match memory.write(at, bytes) {
        Ok(()) => {}
        Err(_) => unreachable!(),
    }
}
