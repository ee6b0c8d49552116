//! The header of a file: the magic number, 16 bytes that are not judged, and the link type.

ghost use Rattle.std.specs.Prelude.{◌≡◌, ◌≤◌, length};
ghost use Rattle.frame_wire.specs.Entries.{value, field};
ghost use Rattle.frame_wire.specs.Reading.{order_of};

use crate::order::Order;

/// The length of a file's header.
pub const HEADER_LEN: usize = 24;

const MAGIC: u32 = 0xa1b2_c3d4;

/// The byte order in which the file has the magic number, where it has a header.
pub fn order_of(bytes: &[u8]) -> Option<Order>
    ensures { result ≡ order_of bytes.now }
{
    if bytes.len() < HEADER_LEN {
        return None;
    }
    let magic = &bytes[0..4];
    if Order::Little.number(magic) == MAGIC {
        Some(Order::Little)
    } else if Order::Big.number(magic) == MAGIC {
        Some(Order::Big)
    } else {
        None
    }
}

/// The link type.
pub fn link_type(order: Order, bytes: &[u8]) -> u32
    requires { 24 ≤ length bytes.now }
    ensures { result ≡ value order (field 20 bytes.now) }
{
    order.number(&bytes[20..24])
}
