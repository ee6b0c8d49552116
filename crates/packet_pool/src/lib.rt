//! What a driver allocates from the guest pool: blocks, pools of packet and buffer descriptors, and
//! the descriptors themselves, which may be on loan. (Windows DDK, NdisAllocateMemoryWithTag,
//! NdisAllocatePacketPool, NdisAllocateBufferPool.)
#![tactic(auto)]

mod descriptor_bytes;
mod guest_row;
mod kept_pools;
mod pool_laws;
mod pools;
mod states;

pub use descriptor_bytes::{
    BUFFER_BYTES, PACKET_BYTES, buffer_bytes, buffer_size, packet_bytes, packet_size,
};
pub use pool_laws::{free_laws, live_laws, room_laws};
pub use pools::Pools;
pub use states::{Descriptor, Kind, Pool, PoolRefusal};
