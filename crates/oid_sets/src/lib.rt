//! What a set of an object identifier hands to a miniport: the union of all filters of its adapter's
//! drivers, all addresses of their multicast lists, or the bytes themselves. (Windows DDK,
//! OID_GEN_CURRENT_PACKET_FILTER, OID_802_3_MULTICAST_LIST.)
#![tactic(auto)]

mod addresses;
mod drivers;
mod handed;

pub use handed::set_bytes;
