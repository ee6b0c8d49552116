//! The frame of a packet: the bytes of the buffers that are chained to it.
#![tactic(auto)]

ghost use Rattle.std.specs.Prelude.{◌≡◌};
ghost use Rattle.std.specs.FinMap as map;
ghost use Rattle.packet_chain.specs.Chain.{Gives, GivesOne};

mod gathering;

use gathering::Gathering;
use nd_base::{Addr, Bytes, Field, Layout};
use nd_mem::{MemFault, Memory};
use std::alloc::Global;

/// The most buffers of a chain.
const BUFFERS: u32 = 64;

/// Why a packet gives no frame.
#[derive(Clone, Copy, Debug, PartialEq, Eq)]
pub enum ChainFault {
    OutOfMemory,
    /// The first place that can't be read.
    Fault(MemFault),
    /// There is a 65th buffer.
    Loop,
    /// Fewer than 14 bytes, or more than 1,514.
    Length,
}

/// The bytes of a packet's chain: from `Private.Head` of the NDIS_PACKET by `Next` of each
/// NDIS_BUFFER to 0, of each buffer as many bytes as its `ByteCount`, at its `MappedSystemVa`.
/// A buffer is read whole, its numbers, its bytes and its link, before the next one.
pub fn chain_bytes(
    alloc: Global,
    packet: Addr,
    layout: &Layout,
    memory: &Memory,
) -> Result<Bytes, ChainFault>
    ensures { Gives layout.now (map.get memory.now) packet.0 result }
{
    let mut gathering = Gathering::new();
    let mut buffer = match gathering::word_of(memory, layout, Field::PacketHead, packet) {
        Ok(head) => head,
        Err(fault) => return Err(ChainFault::Fault(fault)),
    };
    for _taken in 0..BUFFERS {
        if buffer == 0 {
            return gathering.frame(alloc);
        }
        buffer = match gathering.add_buffer(memory, layout, Addr(buffer)) {
            Ok(next) => next,
            Err(fault) => return Err(ChainFault::Fault(fault)),
        };
    }
    if buffer != 0 {
        return Err(ChainFault::Loop);
    }
    gathering.frame(alloc)
}

/// But for want of memory, a chain gives one thing. (This is a law: it does nothing.)
pub fn chain_gives_one()
    ensures { GivesOne }
{}
