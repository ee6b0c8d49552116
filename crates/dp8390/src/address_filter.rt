//! Which frames are taken, by their destination address.

ghost use Rattle.std.specs.Prelude.{◌≡◌, ◌<◌};
ghost use Rattle.dp8390.specs.AddressFilter.{crc_bit, crc_byte, crc, hash, is_broadcast, is_group, multicast_bit, accepts};

use crate::bits::{AB, AM, PRO, has};
use crate::registers::Registers;

/// The generator of the CRC of IEEE 802.3, without its highest term.
const GENERATOR: u32 = 0x04C1_1DB7;

/// The CRC after one more bit.
fn crc_bit(word: u32, bit: u32) -> u32
    ensures { result ≡ crc_bit word bit }
{
    let shifted = word << 1;
    if word >> 31 == bit {
        shifted
    } else {
        shifted ^ GENERATOR
    }
}

/// The CRC after one more byte, whose lowest bit comes first.
#[tactic(auto, unfolding(crate::specs::AddressFilter::crc_bits, crate::specs::AddressFilter::crc_byte))]
fn crc_byte(word: u32, byte: u8) -> u32
    ensures { result ≡ crc_byte word byte }
{
    let mut crc = word;
    for place in 0..8u32 {
        crc = crc_bit(crc, u32::from((byte >> place) % 2));
    }
    crc
}

/// The CRC of an address.
fn crc(address: &[u8; 6]) -> u32
    ensures { result ≡ crc address.now }
{
    let mut crc = u32::MAX;
    for &byte in address {
        crc = crc_byte(crc, byte);
    }
    crc
}

/// The six highest bits of the CRC of an address.
fn hash(address: &[u8; 6]) -> u8
    ensures value { result ≡ hash address.now }
    ensures small { result < 64 }
{
    (crc(address) >> 26) as u8
}

/// Whether an address is that of all stations.
pub fn is_broadcast(address: &[u8; 6]) -> bool
    ensures { result ≡ is_broadcast address.now }
{
    *address == [0xFF; 6]
}

/// Whether an address is that of a group of stations, or of all.
pub fn is_group(address: &[u8; 6]) -> bool
    ensures { result ≡ is_group address.now }
{
    address[0] % 2 == 1
}

impl Registers {
    /// Whether the bit of MAR that a hash names is set.
    fn has_multicast_bit(&self, hash: u8) -> bool
        requires { hash < 64 }
        ensures { result ≡ multicast_bit self.now hash }
    {
        (self.multicast[usize::from(hash / 8)] >> (hash % 8)) % 2 == 1
    }

    /// Whether a frame for an address is taken.
    pub fn accepts(&self, address: &[u8; 6]) -> bool
        ensures { result ≡ accepts self.now address.now }
    {
        if is_broadcast(address) {
            has(self.receive_configuration, AB)
        } else if is_group(address) {
            has(self.receive_configuration, AM) && self.has_multicast_bit(hash(address))
        } else {
            has(self.receive_configuration, PRO) || *address == self.physical
        }
    }
}
