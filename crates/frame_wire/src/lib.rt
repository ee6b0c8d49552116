//! Files of Ethernet frames in the classic pcap format with times in microseconds and link type 1
//! (the libpcap file format, pcap-savefile(5)): reading one in either byte order, and writing one
//! in little-endian, as version 2.4.
//!
//! Of a file that is read, the version, the time zone, the accuracy and the snap length are not
//! judged, nor microseconds of a million and more, which count as the time that they are. A file is
//! judged to its end before any memory is taken, so what is wrong with it is told however little
//! memory there is.
#![tactic(auto)]

mod arrival;
mod entry;
mod header;
mod order;
mod reading;
mod refusal;
mod writing;

pub use arrival::Arrival;
pub use reading::{one_reading, read_frames};
pub use refusal::WireRefusal;
pub use writing::{round_trip, write_frames};
