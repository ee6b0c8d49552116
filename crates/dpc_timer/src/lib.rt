//! The virtual clock: its timers, of which the due one of least moment comes first, and the
//! handlers that are queued for adapters. (Windows DDK, NdisMSetTimer and "Introduction to DPCs".)
#![tactic(auto)]

mod clock;
mod clock_laws;
mod timer;
mod timer_queue;
mod turns;

pub use clock::Clock;
pub use clock_laws::{time_laws, timer_laws};
pub use timer::Turn;
