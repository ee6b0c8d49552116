//! Bytes that are gathered from guest memory.

ghost use Rattle.std.specs.Prelude.{◌≡◌, ◌≤◌, ◌<◌, ◌+◌, ◌^◌, ◌++◌, ℕ, [], List, length, OnOk, MatchResult};
ghost use Rattle.std.specs.FinMap as map;
ghost use Rattle.nd_mem.specs.Space.{first_fault, answer_of, bytes_from, Reading};
ghost use Rattle.packet_chain.specs.Chain.{word_at, field_at, next_of, bytes_of, buffer_fault, IsFrameLong};
ghost use Rattle.packet_chain.specs.declared.ChainFault.{ChainFault};
ghost use Rattle.packet_chain.specs.Gathering.{Holds, Finishes};

use crate::ChainFault;
use nd_base::{Addr, Bytes, Field, Layout};
use nd_mem::{MemFault, Memory, fault_laws, read_laws};
use std::alloc::Global;

/// The fewest bytes of a frame: those of its header.
const SHORTEST: u64 = 14;

/// The most bytes of a frame.
const LONGEST: usize = 1514;

/// How many bytes are looked at in one read.
const PIECE: u32 = 2048;

/// How many bytes were gathered, and, as long as they fit a frame, which.
#[derive(Drop)]
pub struct Gathering {
    pub count: u64,
    pub bytes: [u8; LONGEST],
}

/// The number in a field of an object.
#[tactic(auto, unfolding(crate::specs::Chain::word_at))]
pub fn word_of(
    memory: &Memory,
    layout: &Layout,
    field: Field,
    object: Addr,
) -> Result<u32, MemFault>
    ensures { let at = field_at layout.now field object.0 in
        result ≡ answer_of (word_at (map.get memory.now) at) (first_fault Reading (map.get memory.now) at 4) }
{
    let at = object.0.wrapping_add(layout.offset(field));
    let mut four = [0; 4];
    memory.read(Addr(at), &mut four)?;
    Ok(u32::from_le_bytes(four))
}

/// Whether so many bytes can be read.
fn look_over(memory: &Memory, at: Addr, count: u32) -> Result<(), MemFault>
    ensures { result ≡ answer_of tt (first_fault Reading (map.get memory.now) at.0 count) }
{
    fault_laws();
    let mut piece = [0; PIECE as usize];
    let mut done = 0;
    while done < count {
        let next = PIECE.min(count - done);
        memory.read(Addr(at.0.wrapping_add(done)), &mut piece[..next as usize])?;
        done += next;
    }
    Ok(())
}

impl Gathering {
    pub fn new() -> Gathering
        ensures { Holds result [] }
    {
        Gathering {
            count: 0,
            bytes: [0; LONGEST],
        }
    }

    /// Puts the bytes at these addresses behind the others.
    fn add(&mut self, memory: &Memory, at: Addr, count: u32) -> Result<(), MemFault>
        requires { self.old.count + count < 2 ^ 64 }
        ensures answer { result ≡ answer_of tt (first_fault Reading (map.get memory.now) at.0 count) }
        ensures ok { OnOk result ((xs : List ℕ) → Holds self.old xs → Holds self.new (xs ++ bytes_from (map.get memory.now) at.0 count)) }
        ensures count { OnOk result (self.new.count ≡ self.old.count + count) }
    {
        read_laws();
        let past = self.count + u64::from(count);
        if past <= LONGEST as u64 {
            memory.read(at, &mut self.bytes[self.count as usize..past as usize])?;
        } else {
            look_over(memory, at, count)?;
        }
        self.count = past;
        Ok(())
    }

    /// Puts a buffer's bytes behind the others, and answers its link.
    pub fn add_buffer(
        &mut self,
        memory: &Memory,
        layout: &Layout,
        buffer: Addr,
    ) -> Result<u32, MemFault>
        requires { self.old.count + 2 ^ 32 ≤ 2 ^ 64 }
        ensures answer { result ≡ answer_of (next_of layout.now (map.get memory.now) buffer.0) (buffer_fault layout.now (map.get memory.now) buffer.0) }
        ensures ok { OnOk result ((xs : List ℕ) → Holds self.old xs → Holds self.new (xs ++ bytes_of layout.now (map.get memory.now) buffer.0)) }
        ensures small { OnOk result (self.new.count < self.old.count + 2 ^ 32) }
    {
        let mapped = word_of(memory, layout, Field::BufferMapped, buffer)?;
        let count = word_of(memory, layout, Field::BufferCount, buffer)?;
        self.add(memory, Addr(mapped), count)?;
        word_of(memory, layout, Field::BufferNext, buffer)
    }

    /// The bytes, where they are a frame's.
    pub fn frame(&self, alloc: Global) -> Result<Bytes, ChainFault>
        ensures { (xs : List ℕ) → Holds self.now xs → Finishes xs result }
    {
        if self.count < SHORTEST || self.count > LONGEST as u64 {
            return Err(ChainFault::Length);
        }
        match Bytes::copy(alloc, &self.bytes[..self.count as usize]) {
            Ok(bytes) => Ok(bytes),
            Err(_) => Err(ChainFault::OutOfMemory),
        }
    }
}
