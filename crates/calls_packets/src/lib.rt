//! Calls of packets and buffers: their pools, their descriptors, and what stands in these. (Windows
//! DDK, ndis.h: NdisAllocatePacketPool, NdisFreePacketPool, NdisAllocatePacket, NdisFreePacket,
//! NdisAllocateBufferPool, NdisFreeBufferPool, NdisAllocateBuffer, NdisFreeBuffer,
//! NdisUnchainBufferAtFront, NdisQueryBuffer, NdisGetFirstBufferFromPacket.)
#![tactic(auto)]

mod buffers;
mod descriptors;
mod fields;
mod pools;
mod status_writes;

pub use buffers::{get_first_buffer, query_buffer, unchain_buffer};
pub use descriptors::{allocate_descriptor, free_descriptor};
pub use pools::{allocate_pool, free_pool};
