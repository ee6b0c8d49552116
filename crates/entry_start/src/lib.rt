//! What a driver finds in memory, and in its registers, when its DriverEntry is entered: its image
//! with the slots of its imports, the regions beside it, and its stack.
#![tactic(auto)]

mod start;

pub use start::{CONTEXT, DRIVER_ENTRY_WORDS, entered_memory, entered_registers};
