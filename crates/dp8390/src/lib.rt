//! An NE2000: the network card of a National DP8390 controller, 16 KiB of memory and a PROM. Each
//! call is the card's answer to an access of its 32 ports, or to a frame on the wire.
#![tactic(auto)]

mod address_filter;
mod bits;
mod board;
mod card;
mod laws;
mod receive;
mod register_map;
mod registers;
mod remote_dma;
mod sent_frame;
mod transmit;

pub use card::Card;
pub use laws::{
    arrival_laws, hash_laws, line_laws, read_back_laws, remote_laws, ring_laws, send_laws,
    whole_laws,
};
