//! A packet's first buffer, and what a buffer says of itself.

ghost use Rattle.std.specs.Prelude.{◌≡◌, ◌≤◌, ◌<◌, ◌∷◌, [], ◌++◌, length, Some, OnOk, IfOk, IfErr};
ghost use Rattle.import_answers.specs.Descriptors.{unchain_buffer, unchained, query_buffer, get_first_buffer, four_written, can_write_four, total_from};
ghost use Rattle.import_answers.specs.Outcomes.{Comes, plain, word_written};
ghost use Rattle.calls_packets.specs.Described.{described, described_from, address_asked};

use crate::fields::{field_in, is_live, place_of, total_from};
use call_replies::{ARGUMENTS_RULE, LIVE_RULE, can_write, put_bytes, put_word, writes};
use guest_world::{Answer, CallRefusal, World};
use log_fields::Writes;
use nd_base::Field;
use packet_pool::Kind;
use std::alloc::Global;

/// What is told of a chain's first buffer: where its bytes are, how many they are, and how many all
/// bytes of the chain are, modulo 2^32.
#[derive(Clone, Copy)]
pub(crate) struct FirstBuffer {
    pub(crate) mapped: u32,
    pub(crate) count: u32,
    pub(crate) total: u32,
}

/// Takes the first buffer off a packet that has one: the next one is its first.
fn unchain(alloc: Global, world: &World, words: &[u32], head: u32) -> Result<Answer, CallRefusal>
    requires words { 2 ≤ length words.now }
    requires some { 0 < head }
    ensures { Comes (unchained world.now words.now head) world.now result world.now }
{
    let head_place = place_of(world, Field::PacketHead, words[0]);
    let counts_place = place_of(world, Field::PacketValidCounts, words[0]);
    let Some(next) = field_in(world, Field::BufferNext, head) else {
        return Err(ARGUMENTS_RULE);
    };
    if !can_write(world, head_place, 4) || !can_write(world, counts_place, 1) {
        return Err(ARGUMENTS_RULE);
    }
    if !is_live(world, Kind::Packet, words[0]) {
        return Err(LIVE_RULE);
    }
    let mut list = Writes::new(alloc);
    put_word(alloc, &mut list, head_place, next)?;
    put_bytes(alloc, &mut list, counts_place, &[0])?;
    put_word(alloc, &mut list, words[1], head)?;
    Ok(writes(alloc, 0, list))
}

/// The answer for a packet without buffers: it stays as it is.
fn unchain_none(alloc: Global, world: &World, words: &[u32]) -> Result<Answer, CallRefusal>
    requires { 2 ≤ length words.now }
    ensures { Comes (unchained world.now words.now 0) world.now result world.now }
{
    if !is_live(world, Kind::Packet, words[0]) {
        return Err(LIVE_RULE);
    }
    let mut list = Writes::new(alloc);
    put_word(alloc, &mut list, words[1], 0)?;
    Ok(writes(alloc, 0, list))
}

/// NdisUnchainBufferAtFront, import 31: takes the first buffer off a packet, and writes its address.
pub fn unchain_buffer(alloc: Global, world: &World, words: &[u32]) -> Result<Answer, CallRefusal>
    requires { 2 ≤ length words.now }
    ensures { Comes (unchain_buffer world.now words.now) world.now result world.now }
{
    let Some(head) = field_in(world, Field::PacketHead, words[0]) else {
        return Err(ARGUMENTS_RULE);
    };
    if !can_write(world, words[1], 4) {
        return Err(ARGUMENTS_RULE);
    }
    if head == 0 {
        unchain_none(alloc, world, words)
    } else {
        unchain(alloc, world, words, head)
    }
}

/// The address of a buffer's bytes where a place for it is named, and 0 where none is: if it can be
/// read, and the place can be written.
fn address_asked(world: &World, place: u32, buffer: u32) -> Option<u32>
    ensures { result ≡ address_asked world.now place buffer }
{
    if place == 0 {
        return Some(0);
    }
    if !can_write(world, place, 4) {
        return None;
    }
    field_in(world, Field::BufferMapped, buffer)
}

/// Puts the write of the address behind the others, where a place for it is named.
fn put_address(
    alloc: Global,
    list: &mut Writes,
    place: u32,
    address: u32,
) -> Result<(), CallRefusal>
    ensures none { place ≡ 0 → OnOk result (list.new ≡ list.old) }
    ensures some { 0 < place → OnOk result (list.new ≡ list.old ++ word_written place address ∷ []) }
    ensures err { IfErr result (λ e. e ≡ CallRefusal.OutOfMemory) }
{
    if place == 0 {
        return Ok(());
    }
    put_word(alloc, list, place, address)
}

/// NdisQueryBuffer, import 32: writes where a buffer's bytes are, if that is asked for, and how many
/// they are.
pub fn query_buffer(alloc: Global, world: &World, words: &[u32]) -> Result<Answer, CallRefusal>
    requires { 3 ≤ length words.now }
    ensures { Comes (query_buffer world.now words.now) world.now result world.now }
{
    let Some(address) = address_asked(world, words[1], words[0]) else {
        return Err(ARGUMENTS_RULE);
    };
    if !can_write(world, words[2], 4) {
        return Err(ARGUMENTS_RULE);
    }
    let Some(count) = field_in(world, Field::BufferCount, words[0]) else {
        return Err(ARGUMENTS_RULE);
    };
    if !is_live(world, Kind::Buffer, words[0]) {
        return Err(LIVE_RULE);
    }
    let mut list = Writes::new(alloc);
    put_address(alloc, &mut list, words[1], address)?;
    put_word(alloc, &mut list, words[2], count)?;
    Ok(writes(alloc, 0, list))
}

/// What is told of a chain's first buffer, where all bytes of the chain are so many.
fn described(world: &World, head: u32, total: u64) -> Option<FirstBuffer>
    requires some { 0 < head }
    requires total { total_from world.now head 64 ≡ Some total }
    ensures { result ≡ described world.now head (Some total) }
{
    let mapped = field_in(world, Field::BufferMapped, head)?;
    let found = field_in(world, Field::BufferCount, head);
    match found {
        Some(count) => Some(FirstBuffer {
            mapped,
            count,
            total: (total % (1 << 32)) as u32,
        }),
        None => unreachable!(),
    }
}

/// What is told of the first buffer of a chain that begins with this one, or with none.
fn described_from(world: &World, head: u32) -> Option<FirstBuffer>
    ensures { result ≡ described_from world.now head }
{
    if head == 0 {
        return Some(FirstBuffer {
            mapped: 0,
            count: 0,
            total: 0,
        });
    }
    match total_from(world, head) {
        Some(total) => described(world, head, total),
        None => None,
    }
}

/// Whether the four places can be written that the call names.
fn can_write_four(world: &World, words: &[u32]) -> bool
    requires { 5 ≤ length words.now }
    ensures { result ≡ can_write_four world.now words.now }
{
    can_write(world, words[1], 4)
        && can_write(world, words[2], 4)
        && can_write(world, words[3], 4)
        && can_write(world, words[4], 4)
}

/// The reply that tells of a packet's first buffer.
fn telling(
    alloc: Global,
    words: &[u32],
    head: u32,
    first: FirstBuffer,
) -> Result<Answer, CallRefusal>
    requires { 5 ≤ length words.now }
    ensures ok { IfOk result (λ answer. answer ≡ Answer.Now (plain 0 (four_written words.now head first.mapped first.count first.total))) }
    ensures err { IfErr result (λ e. e ≡ CallRefusal.OutOfMemory) }
{
    let mut list = Writes::new(alloc);
    put_word(alloc, &mut list, words[1], head)?;
    put_word(alloc, &mut list, words[2], first.mapped)?;
    put_word(alloc, &mut list, words[3], first.count)?;
    put_word(alloc, &mut list, words[4], first.total)?;
    Ok(writes(alloc, 0, list))
}

/// NdisGetFirstBufferFromPacket, import 52: writes a packet's first buffer, where its bytes are, how
/// many they are, and how many all buffers of the packet have.
pub fn get_first_buffer(alloc: Global, world: &World, words: &[u32]) -> Result<Answer, CallRefusal>
    requires { 5 ≤ length words.now }
    ensures { Comes (get_first_buffer world.now words.now) world.now result world.now }
{
    let Some(head) = field_in(world, Field::PacketHead, words[0]) else {
        return Err(ARGUMENTS_RULE);
    };
    if !can_write_four(world, words) {
        return Err(ARGUMENTS_RULE);
    }
    let Some(first) = described_from(world, head) else {
        return Err(ARGUMENTS_RULE);
    };
    if !is_live(world, Kind::Packet, words[0]) {
        return Err(LIVE_RULE);
    }
    telling(alloc, words, head, first)
}
