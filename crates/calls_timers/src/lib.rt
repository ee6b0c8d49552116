//! Calls of timers, and sleep. (Windows DDK, ndis.h: NdisMInitializeTimer, NdisSetTimer,
//! NdisMSetPeriodicTimer, NdisMCancelTimer, NdisMSleep.)
#![tactic(auto)]

mod timers;

pub use timers::{cancel_timer, initialize_timer, set_periodic_timer, set_timer, sleep};
