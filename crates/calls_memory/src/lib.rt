//! Calls that allocate and free memory, and that copy and set bytes. (Windows DDK, ndis.h:
//! NdisAllocateMemoryWithTag, NdisFreeMemory; ISO C: memcpy, memset.)
#![tactic(auto)]

mod blocks;
mod copying;
mod moves;

pub use blocks::{allocate_memory, free_memory};
pub use moves::{copy_memory, set_memory};
