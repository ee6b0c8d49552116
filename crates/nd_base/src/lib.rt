//! The numbers, byte strings, files and sinks that every other crate speaks of.
#![tactic(auto)]

pub mod byte_string;
pub mod calm;
pub mod event_gate;
pub mod fault;
mod fault_plan;
mod file_table;
pub mod laws;
pub mod layout;
mod layout_field;
mod layout_text;
pub mod line_sink;
pub mod memory_files;
pub mod memory_sink;
pub mod named_files;
pub mod numbers;
pub mod rows;
pub mod wide_string;
pub mod words;

pub use byte_string::Bytes;
pub use calm::{CalmFiles, CalmSink};
pub use event_gate::{Gate, OpenGate};
pub use fault::{IoFault, OutOfMemory};
pub use layout::{Layout, LayoutRefusal, usual_is_a_layout};
pub use layout_field::Field;
pub use line_sink::Sink;
pub use memory_files::MemFiles;
pub use memory_sink::MemSink;
pub use named_files::Files;
pub use numbers::{
    AdapterNo, Addr, BindingNo, Breach, CtxNo, LoanNo, PacketNo, Phase, RequestNo, Slot, Status,
};
pub use rows::{Keyed, Rows};
pub use wide_string::Wide;
