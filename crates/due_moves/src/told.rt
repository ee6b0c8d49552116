//! Which driver is told of an end.

ghost use Rattle.std.specs.Prelude.{◌≡◌, slice_get};
ghost use Rattle.std.specs.Option.{option_map_or};

use nd_base::{BindingNo, PacketNo, RequestNo};
use owner_book::Book;

/// The driver of a packet.
pub(crate) fn packet_driver(book: &Book, packet: PacketNo) -> BindingNo
    ensures { result.0 ≡ option_map_or (λ p. p.driver.0) (slice_get book.now.packets packet.0) 0 }
{
    match book.packet(packet) {
        Some(row) => row.driver,
        None => BindingNo(0),
    }
}

/// The driver of a request.
pub(crate) fn request_driver(book: &Book, request: RequestNo) -> BindingNo
    ensures { result.0 ≡ option_map_or (λ q. q.driver.0) (slice_get book.now.requests request.0) 0 }
{
    match book.request(request) {
        Some(row) => row.driver,
        None => BindingNo(0),
    }
}
