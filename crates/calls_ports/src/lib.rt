//! Calls that access the ports of an adapter's card. (Windows DDK, wdm.h: READ_PORT_UCHAR,
//! READ_PORT_USHORT, WRITE_PORT_UCHAR, WRITE_PORT_USHORT and the forms that move a buffer.)
#![tactic(auto)]

mod accesses;
mod buffers;
mod cards;
mod ports;
mod width;

pub use buffers::{in_buffer, out_buffer};
pub use ports::{in_port, out_port};
pub use width::Width;
