//! The packets of a burst.

ghost use Rattle.std.specs.Prelude.{◌≡◌, ◌≤◌, ◌<◌, ◌^◌, IfOk};
ghost use Rattle.binding.specs.Steps.{burst_packet};

use crate::packet::Packet;
use nd_base::{Bytes, OutOfMemory};
use std::alloc::Global;

/// The bytes of packet `index` of a burst, as long as `length` says, at least 14.
#[tactic(auto, unfolding(crate::specs::Steps::burst_packet))]
fn burst_bytes(alloc: Global, mac: &[u8; 6], index: u32, length: u32) -> Result<Bytes, OutOfMemory>
    requires least { 14 ≤ length }
    requires most { length ≤ 1514 }
    requires count { index < 2 ^ 16 }
    ensures { IfOk result (λ b. b ≡ burst_packet mac.now index length) }
{
    let mut bytes = Bytes::new(alloc);
    bytes.extend_from_slice(&[0xff; 6])?;
    bytes.extend_from_slice(mac)?;
    bytes.extend_from_slice(&[0x88, 0xb5])?;
    for offset in 0..length - 14 {
        bytes.push(((index + offset) % 256) as u8)?;
    }
    Ok(bytes)
}

/// Packet `index` of a burst of packets of so many bytes.
pub(crate) fn burst_packet(
    alloc: Global,
    mac: &[u8; 6],
    index: u16,
    length: u16,
) -> Result<Packet, OutOfMemory>
    requires least { 14 ≤ length }
    requires most { length ≤ 1514 }
    ensures { IfOk result (λ p. p ≡ burst_packet mac.now index length) }
{
    let bytes = burst_bytes(alloc, mac, u32::from(index), u32::from(length))?;
    match Packet::new(bytes) {
        Ok(packet) => Ok(packet),
        Err(_) => unreachable!(),
    }
}
