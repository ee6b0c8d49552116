//! Imports 11 to 15: an adapter's ports and its interrupt. (Windows DDK, ndis.h:
//! NdisMRegisterIoPortRange, NdisMDeregisterIoPortRange, NdisMRegisterInterrupt,
//! NdisMDeregisterInterrupt, NdisMSynchronizeWithInterrupt.)
#![tactic(auto)]

mod interrupts;
mod ports;

pub use interrupts::{deregister_interrupt, register_interrupt, synchronize};
pub use ports::{deregister_ports, register_ports};
