//! What is known of pools and descriptors.

use nd_base::Addr;

/// What the descriptors of a pool are: of packets (NDIS_PACKET) or of buffers (NDIS_BUFFER).
#[derive(Clone, Copy, Debug, PartialEq, Eq)]
pub enum Kind {
    Packet,
    Buffer,
}

/// A pool: its descriptors stand one behind the other from an address on.
#[derive(Clone, Copy, Debug, PartialEq, Eq)]
pub struct Pool {
    pub kind: Kind,
    pub first: Addr,
    pub count: u32,
}

/// A descriptor that is out: its kind, the handle of its pool, and whether it is on loan.
#[derive(Clone, Copy, Debug, PartialEq, Eq)]
pub struct Descriptor {
    pub kind: Kind,
    pub pool: u32,
    pub lent: bool,
}

/// Why a pool, a descriptor or a block is not made.
#[derive(Clone, Copy, Debug, PartialEq, Eq)]
pub enum PoolRefusal {
    OutOfMemory,
    /// A pool of no descriptors, or of more than 4,096.
    Count,
    /// No free range of the guest pool is long enough.
    NoRoom,
    /// The handle is that of no pool of this kind.
    NoPool,
    /// All descriptors of the pool are out.
    PoolFull,
}
