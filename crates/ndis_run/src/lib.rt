//! The top calls: the commands, run over files and a sink.
#![tactic(auto)]

pub mod forge_command;
pub mod laws;
mod log_file;
pub mod ndis;
pub mod printing;
pub mod real_devices;
pub mod run_zero;
pub mod show;
pub mod system_calls;
pub mod tool;
pub mod transfer;
pub mod words;

pub use ndis::ndis_main;
pub use real_devices::{RealFiles, RealSink};
pub use tool::tool_main;
