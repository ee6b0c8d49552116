//! A frame on the wire.

use nd_base::Bytes;

/// An Ethernet frame, from its destination address to before its checksum, and when it arrived.
#[derive(Debug, Drop)]
pub struct Arrival {
    /// In microseconds.
    pub stamp: u64,
    pub bytes: Bytes,
}
