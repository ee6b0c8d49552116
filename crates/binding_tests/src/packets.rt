//! Packets.

use binding::Packet;
use nd_base::Bytes;
use std::alloc::Global;

fn bytes_of(alloc: Global, len: usize) -> Option<Bytes> {
    let mut bytes = Bytes::new(alloc);
    for _ in 0..len {
        bytes.push(7).ok()?;
    }
    Some(bytes)
}

/// Whether a packet of so many bytes is made, and gives them again.
fn makes(alloc: Global, len: usize) -> bool {
    let Some(bytes) = bytes_of(alloc, len) else {
        return false;
    };
    match Packet::new(bytes) {
        Ok(packet) => {
            let seen = packet.as_slice().len();
            packet.spend().len() == len && seen == len
        }
        Err(_) => false,
    }
}

/// Whether so many bytes are handed back.
fn hands_back(alloc: Global, len: usize) -> bool {
    let Some(bytes) = bytes_of(alloc, len) else {
        return false;
    };
    match Packet::new(bytes) {
        Ok(packet) => {
            drop(packet.spend());
            false
        }
        Err(back) => back.len() == len,
    }
}

#[test]
fn lengths(rt: HostRuntime) {
    let alloc = rt.alloc();
    assert!(rt; hands_back(alloc, 13));
    assert!(rt; makes(alloc, 14));
    assert!(rt; makes(alloc, 1514));
    assert!(rt; hands_back(alloc, 1515));
}
