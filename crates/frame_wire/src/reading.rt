//! Reading a file of frames.

ghost use Rattle.std.specs.Prelude.{◌≡◌, ◌<◌, ◌≤◌, ℕ, List, length, slice_index, Result, Ok, Err, IfOk, IfErr, IsOk, MatchResult, ◌⊎◌};
ghost use Rattle.frame_wire.specs.declared.arrival.Arrival.{Arrival};
ghost use Rattle.frame_wire.specs.declared.refusal.WireRefusal.{WireRefusal};
ghost use Rattle.frame_wire.specs.Entries.{arrival, time};
ghost use Rattle.std.specs.List.{AllByRecursion};
ghost use Rattle.frame_wire.specs.Captures.{IsSpelled, IsRefused, IsEthernetLong, CanArrive, StartsAt};
ghost use Rattle.frame_wire.specs.Reading.{seen, first_time, header_of, entries_of, count_of, reading};

use crate::arrival::Arrival;
use crate::entry::{Entry, first_time, next_entry, whole_at};
use crate::header::{HEADER_LEN, link_type, order_of};
use crate::order::Order;
use crate::refusal::WireRefusal;
use nd_base::{Bytes, OutOfMemory};
use std::alloc::Global;

/// The longest file that is read, in bytes.
const LONGEST_FILE: usize = 134_217_728;

/// The most entries that are read.
const MOST_ENTRIES: usize = 65_536;

/// The stamp of a file's first frame, in microseconds.
const FIRST_STAMP: u64 = 1_000_000;

/// The link type of Ethernet.
const ETHERNET: u32 = 1;

/// The byte order of a file that is not too long and has the header of an Ethernet capture.
fn judged_header(bytes: &[u8]) -> Result<Order, WireRefusal>
    ensures { result ≡ header_of bytes.now }
{
    if bytes.len() > LONGEST_FILE {
        return Err(WireRefusal::TooLong);
    }
    let Some(order) = order_of(bytes) else {
        return Err(WireRefusal::BadHeader);
    };
    let link = link_type(order, bytes);
    if link != ETHERNET {
        return Err(WireRefusal::LinkType(link));
    }
    Ok(order)
}

/// How many entries there are, of which the first lies behind the header, or the first fault.
fn entry_count(order: Order, bytes: &[u8]) -> Result<usize, WireRefusal>
    requires { length bytes.now ≤ 134217728 }
    ensures { result ≡ count_of (entries_of order bytes.now) }
{
    let mut last = first_time(order, bytes);
    let mut at = HEADER_LEN as u64;
    let mut count = 0;
    let mut rest = bytes;
    while !rest.is_empty() {
        if count == MOST_ENTRIES {
            return Err(WireRefusal::TooLong);
        }
        let (entry, behind) = next_entry(order, last, at, rest)?;
        last = entry.time();
        at += (rest.len() - behind.len()) as u64;
        count += 1;
        rest = behind;
    }
    Ok(count)
}

/// The frame of an entry, in a file whose first entry has the time `first`.
fn arrival(alloc: Global, first: u64, entry: &Entry<'_>) -> Result<Arrival, OutOfMemory>
    requires { first ≤ time (seen entry.now) }
    ensures { IfOk result (λ a. a ≡ arrival first (seen entry.now)) }
{
    Ok(Arrival {
        stamp: FIRST_STAMP + (entry.time() - first),
        bytes: Bytes::copy(alloc, entry.frame)?,
    })
}

/// The frames of `count` entries, of which each is good.
fn frames_of(
    alloc: Global,
    order: Order,
    bytes: &[u8],
    count: usize,
) -> Result<Vec<Arrival>, OutOfMemory>
    requires { IsOk (entries_of order bytes.now) }
    ensures { IfOk result (λ v. entries_of order bytes.now ≡ Ok v.items) }
{
    let first = first_time(order, bytes);
    let mut frames = Vec::with_capacity(alloc, count)?;
    let mut rest = bytes;
    while let Some((entry, behind)) = whole_at(order, rest) {
        frames.push(arrival(alloc, first, &entry)?)?;
        rest = behind;
    }
    Ok(frames)
}

/// The frames of a file, or its first fault. The whole file is judged before any memory is taken.
#[tactic(auto, unfolding(crate::specs::Reading::reading))]
fn frames_or_fault(alloc: Global, bytes: &[u8]) -> Result<Vec<Arrival>, WireRefusal>
    ensures { MatchResult result (λ v. reading bytes.now ≡ Ok v.items) (λ e. (reading bytes.now ≡ Err e) ⊎ ((e ≡ WireRefusal.OutOfMemory) × IsOk (reading bytes.now))) }
{
    let order = judged_header(bytes)?;
    let entries = &bytes[HEADER_LEN..];
    let count = entry_count(order, entries)?;
    Ok(frames_of(alloc, order, entries, count)?)
}

/// The frames of a file, in its order. The first has the stamp 1,000,000, and each other one that
/// plus its time since the first, in microseconds.
pub fn read_frames(alloc: Global, bytes: &[u8]) -> Result<Vec<Arrival>, WireRefusal>
    // What is read is spelled so, each byte of it.
    ensures found { IfOk result (λ v. IsSpelled bytes.now v.items) }
    // What is spelled so is read, unless memory runs out.
    ensures only { (fs : List Arrival) → IsSpelled bytes.now fs → MatchResult result (λ v. v.items ≡ fs) (λ e. e ≡ WireRefusal.OutOfMemory) }
    // A refusal is that of the first fault, behind the longest good front.
    ensures refused { IfErr result (λ e. (e ≡ WireRefusal.OutOfMemory) ⊎ IsRefused bytes.now e) }
    // Where there is a fault, the refusal is its, however little memory there is.
    ensures first { (e : WireRefusal) → IsRefused bytes.now e → result ≡ Err e }
    // Memory runs out only where there are frames to be read.
    ensures memory { result ≡ Err WireRefusal.OutOfMemory → (fs : List Arrival) × IsSpelled bytes.now fs }
    // Each frame is an Ethernet frame.
    ensures lengths { IfOk result (λ v. AllByRecursion IsEthernetLong v.items) }
    // They can arrive on a wire: at most 65,536, whose stamps do not fall and are below 2^52.
    ensures wire { IfOk result (λ v. CanArrive v.items) }
    // The first has the stamp 1,000,000.
    ensures start { IfOk result (λ v. StartsAt 1000000 v.items) }
{
    frames_or_fault(alloc, bytes)
}

/// A file has one reading: frames or a refusal, never both, and never two of either.
pub fn one_reading()
    ensures frames { (bytes : List ℕ) (a b : List Arrival) → IsSpelled bytes a → IsSpelled bytes b → a ≡ b }
    ensures refusals { (bytes : List ℕ) (d e : WireRefusal) → ((i : ℕ) → slice_index bytes i < 256) → IsRefused bytes d → IsRefused bytes e → d ≡ e }
    ensures apart { (bytes : List ℕ) (a : List Arrival) (e : WireRefusal) → ((i : ℕ) → slice_index bytes i < 256) → IsSpelled bytes a → IsRefused bytes e → ⊥ }
{}
