//! Calls that raise and lower the interrupt request level, and spin locks. (Windows DDK, wdm.h:
//! KfRaiseIrql, KfLowerIrql; ndis.h: NdisAllocateSpinLock, NdisFreeSpinLock, NdisAcquireSpinLock,
//! NdisReleaseSpinLock and the forms at DPC level.)
#![tactic(auto)]

mod levels;
mod locks;

pub use levels::{lower, raise};
pub use locks::{acquire, allocate_lock, free_lock, release};
