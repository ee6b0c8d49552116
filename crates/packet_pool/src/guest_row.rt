//! The units of 16 bytes of the guest pool.

ghost use Rattle.std.specs.Prelude.{◌≡◌, ◌≤◌, ◌<◌, ◌+◌, ◌-◌, ◌*◌, ◌/◌, ℕ};
ghost use Rattle.packet_pool.specs.LiveSet.{descriptor_size, is_same, unit_address, units};
ghost use Rattle.packet_pool.specs.KeptLive.{unit_count, IsRoom};
ghost use Rattle.free_ranges.specs.Ranges as free;

use crate::states::Kind;
use free_ranges::FreeRanges;

/// How many units the guest pool has.
pub(crate) const UNITS: u32 = 0x8_0000;

/// The address of a unit.
pub(crate) fn unit_address(unit: u32) -> u32
    requires { unit < units }
    ensures { result ≡ unit_address unit }
{
    0x8100_0000 + 16 * unit
}

/// The unit at an address of the guest pool.
pub(crate) fn unit_at(address: u32) -> u32
    requires { 0x81000000 ≤ address }
    ensures { result ≡ (address - 0x81000000) / 16 }
{
    (address - 0x8100_0000) / 16
}

/// How many units so many bytes take.
pub(crate) fn unit_count(length: u32) -> u32
    requires { 1 ≤ length }
    ensures { result ≡ unit_count length }
{
    (length - 1) / 16 + 1
}

/// The first unit from which on so many bytes are free.
pub(crate) fn room_for(row: &FreeRanges, length: u32) -> Option<u32>
    requires some { 1 ≤ length }
    requires size { free.units row.now ≡ units }
    ensures { IsRoom row.now length result }
{
    row.fit(unit_count(length))
}

/// How many bytes a descriptor has.
pub(crate) fn descriptor_size(kind: Kind) -> u32
    ensures { result ≡ descriptor_size kind }
{
    match kind {
        Kind::Packet => 128,
        Kind::Buffer => 32,
    }
}

/// Whether two kinds are one.
pub(crate) fn is_same(kind: Kind, other: Kind) -> bool
    ensures { result ≡ is_same kind other }
{
    match (kind, other) {
        (Kind::Packet, Kind::Packet) => true,
        (Kind::Buffer, Kind::Buffer) => true,
        _ => false,
    }
}
