//! Imports 39 to 50, 61 and 64: completions, indications and what is only logged; the run-time.
//! (Windows DDK, ndis.h: NdisMSendComplete, NdisMIndicateReceivePacket and the others of
//! specs/Completions.antt of import_answers; KeStallExecutionProcessor, DbgPrint.)
#![tactic(auto)]

mod completions;
mod run_time;

pub use completions::{indicate_receive, not_served, of_adapter, send_complete};
pub use run_time::{debug_print, stall};
