//! The blocks, pools and descriptors of the guest pool.

ghost use Rattle.std.specs.Prelude.{◌≡◌, true, not, ◌&&◌, IfOk};
ghost use Rattle.std.specs.FinMap as map;
ghost use Rattle.guest_map.specs.Regions.{region, IsInside};
ghost use Rattle.guest_map.specs.Regions as guest;
ghost use Rattle.packet_pool.specs.DescriptorBytes.{packet_bytes, buffer_bytes, HasGuestPool, WritesNew};
ghost use Rattle.packet_pool.specs.LiveSet.{nothing, descriptor_size, is_out, is_lent, is_same};
ghost use Rattle.packet_pool.specs.LiveMoves.{FreePool, Free, Lend, Unlend, FreeBlock, Allocates, MakesPool, MakesBlock, Frees, Makes, is_count};

use crate::descriptor_bytes::{buffer_bytes, packet_bytes, write_new};
use crate::guest_row::{
    UNITS, descriptor_size, is_same, room_for, unit_address, unit_at, unit_count,
};
use crate::kept_pools::{KeptPool, give_place, idle_place, is_whole, take_place};
use crate::states::{Descriptor, Kind, Pool, PoolRefusal};
use free_ranges::FreeRanges;
use guest_map::pool_handle;
use nd_base::{Addr, Breach, Layout, OutOfMemory};
use nd_mem::Memory;
use std::alloc::Global;
use std::collections::BTreeMap;
use std::marker::Model;

/// The most descriptors of a pool.
const MOST_DESCRIPTORS: u32 = 4096;

/// How many pools have a handle.
const MOST_POOLS: u32 = 0xFFF_0000;

/// What is not live is used, a packet on loan is freed, or a pool with a descriptor that is out.
const LIVE_RULE: Breach = Breach(2);

/// What lives in the guest pool. A refusal and a breach change nothing.
#[derive(Drop)]
pub struct Pools {
    /// Which units of 16 bytes are free.
    row: FreeRanges,
    /// The length of each block, by its address.
    blocks: BTreeMap<u32, u32>,
    /// The pools, by handle.
    pools: BTreeMap<u32, KeptPool>,
    /// The descriptors that are out, by address.
    descriptors: BTreeMap<u32, Descriptor>,
    /// How many pools were made so far.
    made: u32,
}

impl Model for Pools {
    ghost use Rattle.packet_pool.specs.LiveSet.{LiveSet, live_code};

    ghost Value = { LiveSet };

    ghost coded = { live_code };

    ghost use Rattle.packet_pool.specs.KeptLive.{live_of, AreKept};

    ghost view = { λ p. live_of p.blocks p.pools p.descriptors p.made };

    ghost invariant = { λ p. AreKept (live_of p.blocks p.pools p.descriptors p.made) p.row p.pools };
}

/// Whether a pool may have so many descriptors.
fn is_count(count: u32) -> bool
    ensures { result ≡ is_count count }
{
    1 <= count && count <= MOST_DESCRIPTORS
}

/// Whether a descriptor is one of this kind that is not on loan.
fn may_end(descriptor: Descriptor, kind: Kind) -> bool
    ensures { result ≡ (is_same descriptor.kind kind && not descriptor.lent) }
{
    is_same(descriptor.kind, kind) && !descriptor.lent
}

impl Pools {
    /// Nothing lives.
    pub fn new(alloc: Global) -> Result<Pools, OutOfMemory>
        ensures { IfOk result (λ pools. pools ≡ nothing) }
    {
        let Ok(row) = FreeRanges::new(alloc, UNITS) else {
            return Err(OutOfMemory);
        };
        Ok(Pools {
            row,
            blocks: BTreeMap::new(alloc),
            pools: BTreeMap::new(alloc),
            descriptors: BTreeMap::new(alloc),
            made: 0,
        })
    }

    /// A pool of so many descriptors: its handle.
    fn make_pool(&mut self, alloc: Global, kind: Kind, count: u32) -> Result<u32, PoolRefusal>
        ensures { MakesPool self.old kind count result self.new }
    {
        if !is_count(count) {
            return Err(PoolRefusal::Count);
        }
        let length = count * descriptor_size(kind);
        let Some(unit) = room_for(&self.row, length) else {
            return Err(PoolRefusal::NoRoom);
        };
        if self.made >= MOST_POOLS {
            return Err(PoolRefusal::OutOfMemory);
        }
        let Ok(idle) = FreeRanges::new(alloc, count) else {
            return Err(PoolRefusal::OutOfMemory);
        };
        let first = Addr(unit_address(unit));
        let pool = Pool { kind, first, count };
        let handle = pool_handle(self.made);
        let Ok(_) = self.pools.insert(handle, KeptPool { pool, idle }) else {
            return Err(PoolRefusal::OutOfMemory);
        };
        self.row.take_at(unit, unit_count(length));
        self.made += 1;
        Ok(handle)
    }

    /// A pool of so many packet descriptors, 1 to 4,096: its handle.
    pub fn make_packets(&mut self, alloc: Global, count: u32) -> Result<u32, PoolRefusal>
        ensures { MakesPool self.old Kind.Packet count result self.new }
    {
        self.make_pool(alloc, Kind::Packet, count)
    }

    /// A pool of so many buffer descriptors, 1 to 4,096: its handle.
    pub fn make_buffers(&mut self, alloc: Global, count: u32) -> Result<u32, PoolRefusal>
        ensures { MakesPool self.old Kind.Buffer count result self.new }
    {
        self.make_pool(alloc, Kind::Buffer, count)
    }

    /// Ends a pool, of either kind, of which no descriptor is out.
    pub fn free_pool(&mut self, pool: u32) -> Result<(), Breach>
        ensures { Frees self.old (FreePool pool) result self.new }
    {
        if !is_whole(&self.pools, pool) {
            return Err(LIVE_RULE);
        }
        let Some(kept) = self.pools.remove(&pool) else {
            return Err(LIVE_RULE);
        };
        let length = kept.pool.count * descriptor_size(kept.pool.kind);
        self.row
            .give_back(unit_at(kept.pool.first.0), unit_count(length));
        Ok(())
    }

    /// A descriptor of a pool: its address. Nothing is written there yet: `packet_bytes` and
    /// `buffer_bytes` are what a new one holds.
    pub fn take_descriptor(&mut self, kind: Kind, pool: u32) -> Result<Addr, PoolRefusal>
        ensures live { Allocates self.old kind pool result self.new }
        ensures inside { IfOk result (λ at. IsInside (region at.0 (descriptor_size kind)) guest.pool) }
    {
        let idle = match idle_place(&self.pools, kind, pool) {
            Ok(idle) => idle,
            Err(refusal) => return Err(refusal),
        };
        let descriptor = Descriptor {
            kind,
            pool,
            lent: false,
        };
        let Ok(_) = self.descriptors.insert(idle.at, descriptor) else {
            return Err(PoolRefusal::OutOfMemory);
        };
        take_place(&mut self.pools, pool, idle.place);
        Ok(Addr(idle.at))
    }

    /// A packet descriptor of a pool: its address. It is written there as new.
    pub fn alloc_packet(
        &mut self,
        pool: u32,
        layout: &Layout,
        memory: &mut Memory,
    ) -> Result<Addr, PoolRefusal>
        requires { HasGuestPool (map.get memory.old) }
        ensures live { Allocates self.old Kind.Packet pool result self.new }
        ensures written { WritesNew (packet_bytes layout.now) result memory.old memory.new }
        ensures memory { HasGuestPool (map.get memory.new) }
    {
        let packet = self.take_descriptor(Kind::Packet, pool)?;
        write_new(memory, packet, &packet_bytes(layout));
        Ok(packet)
    }

    /// A buffer descriptor of a pool, for so many bytes at an address: its own address. It is
    /// written there as new.
    pub fn alloc_buffer(
        &mut self,
        pool: u32,
        at: Addr,
        count: u32,
        layout: &Layout,
        memory: &mut Memory,
    ) -> Result<Addr, PoolRefusal>
        requires { HasGuestPool (map.get memory.old) }
        ensures live { Allocates self.old Kind.Buffer pool result self.new }
        ensures written { WritesNew (buffer_bytes layout.now at.0 count) result memory.old memory.new }
        ensures memory { HasGuestPool (map.get memory.new) }
    {
        let buffer = self.take_descriptor(Kind::Buffer, pool)?;
        write_new(memory, buffer, &buffer_bytes(layout, at, count));
        Ok(buffer)
    }

    /// Ends a descriptor of this kind.
    fn give_descriptor(&mut self, kind: Kind, at: Addr) -> Result<(), Breach>
        ensures { Frees self.old (Free kind at.0) result self.new }
    {
        let Some(descriptor) = self.descriptors.get(&at.0).copied() else {
            return Err(LIVE_RULE);
        };
        if !may_end(descriptor, kind) {
            return Err(LIVE_RULE);
        }
        let _ = self.descriptors.remove(&at.0);
        give_place(&mut self.pools, descriptor.pool, at.0);
        Ok(())
    }

    /// Ends a packet descriptor that is not on loan.
    pub fn free_packet(&mut self, packet: Addr) -> Result<(), Breach>
        ensures { Frees self.old (Free Kind.Packet packet.0) result self.new }
    {
        self.give_descriptor(Kind::Packet, packet)
    }

    /// Ends a buffer descriptor.
    pub fn free_buffer(&mut self, buffer: Addr) -> Result<(), Breach>
        ensures { Frees self.old (Free Kind.Buffer buffer.0) result self.new }
    {
        self.give_descriptor(Kind::Buffer, buffer)
    }

    /// Marks a live packet as on loan.
    pub fn lend(&mut self, packet: Addr)
        requires { is_out self.old Kind.Packet packet.0 ≡ true }
        ensures { Makes self.old (Lend packet.0) self.new }
    {
        match self.descriptors.get_mut(&packet.0) {
            Some(descriptor) => descriptor.lent = true,
            None => unreachable!(),
        }
    }

    /// Marks a live packet as no longer on loan.
    pub fn unlend(&mut self, packet: Addr)
        requires { is_out self.old Kind.Packet packet.0 ≡ true }
        ensures { Makes self.old (Unlend packet.0) self.new }
    {
        match self.descriptors.get_mut(&packet.0) {
            Some(descriptor) => descriptor.lent = false,
            None => unreachable!(),
        }
    }

    /// Whether a descriptor of this kind is out there.
    fn has(&self, kind: Kind, at: Addr) -> bool
        ensures { result ≡ is_out self.now kind at.0 }
    {
        match self.descriptors.get(&at.0) {
            Some(descriptor) => is_same(descriptor.kind, kind),
            None => false,
        }
    }

    /// Whether this is a live packet.
    pub fn has_packet(&self, packet: Addr) -> bool
        ensures { result ≡ is_out self.now Kind.Packet packet.0 }
    {
        self.has(Kind::Packet, packet)
    }

    /// Whether this is a live buffer.
    pub fn has_buffer(&self, buffer: Addr) -> bool
        ensures { result ≡ is_out self.now Kind.Buffer buffer.0 }
    {
        self.has(Kind::Buffer, buffer)
    }

    /// Whether this is a live packet on loan.
    pub fn lent(&self, packet: Addr) -> bool
        ensures { result ≡ (is_out self.now Kind.Packet packet.0 && is_lent self.now packet.0) }
    {
        match self.descriptors.get(&packet.0) {
            Some(descriptor) => is_same(descriptor.kind, Kind::Packet) && descriptor.lent,
            None => false,
        }
    }

    /// A block of so many bytes: its address. A block of no bytes has one too.
    pub fn alloc_block(&mut self, length: u32) -> Result<Addr, PoolRefusal>
        ensures { MakesBlock self.old length result self.new }
    {
        let taken = length.max(1);
        let Some(unit) = room_for(&self.row, taken) else {
            return Err(PoolRefusal::NoRoom);
        };
        let at = unit_address(unit);
        let Ok(_) = self.blocks.insert(at, length) else {
            return Err(PoolRefusal::OutOfMemory);
        };
        self.row.take_at(unit, unit_count(taken));
        Ok(Addr(at))
    }

    /// Ends a block.
    pub fn free_block(&mut self, at: Addr) -> Result<(), Breach>
        ensures { Frees self.old (FreeBlock at.0) result self.new }
    {
        let Some(length) = self.blocks.remove(&at.0) else {
            return Err(LIVE_RULE);
        };
        self.row.give_back(unit_at(at.0), unit_count(length.max(1)));
        Ok(())
    }
}
