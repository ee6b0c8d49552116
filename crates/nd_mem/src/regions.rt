//! The regions that a memory is made of, and runs of bytes that go over several of them. A run
//! is taken region by region, what comes behind first: so a fault there leaves all as it was.

ghost use Rattle.std.specs.Prelude.{slice_index_or, ◌≡◌, ℕ, ◌+◌, ◌-◌, ◌≤◌, ◌<◌, ◌++◌, length, take, drop, replicate, true, false, IfOk, IfErr, OnOk, OnErr, Ok, Err, Some, None, is_some};
ghost use Rattle.std.specs.List.{position};
ghost use Rattle.std.specs.List.Sorted.{IsPartitionPoint};
ghost use Rattle.nd_mem.specs.Space.{first_fault, answer_of, allows, bytes_from, executable_run, fault_at, Executing, Reading};
ghost use Rattle.nd_mem.specs.Regions.{holds, cells_of, AreLaidOut, shapes, access_of, allowed_or, IsSpot, IsRun, PutsBytes};

use crate::{MemFault, Rights};
use nd_base::Addr;
use std::alloc::{AllocError, Global};
use std::cell::Cell;

/// What an access wants to do with each byte. To place a byte asks for no right.
#[derive(Clone, Copy)]
pub enum Purpose {
    Place,
    Read,
    Write,
    Execute,
}

impl Purpose {
    /// The fault at a mapped address whose rights do not allow it.
    #[inline(always)]
    fn check(self, rights: Rights, at: Addr) -> Result<(), MemFault>
        ensures { result ≡ allowed_or (access_of self) at (allows (access_of self) rights) }
    {
        match self {
            Purpose::Read if !rights.read => Err(MemFault::NotReadable(at)),
            Purpose::Write if !rights.write => Err(MemFault::NotWritable(at)),
            Purpose::Execute if !rights.execute => Err(MemFault::NotExecutable(at)),
            _ => Ok(()),
        }
    }
}

/// Bytes from an address on, all with the same rights.
#[derive(Drop)]
pub struct Region {
    pub first: Addr,
    pub bytes: Vec<u8>,
    pub rights: Rights,
}

impl Region {
    /// `len` zero bytes.
    pub fn zeroed(alloc: Global, first: Addr, len: u32, rights: Rights) -> Result<Self, AllocError>
        ensures { IfOk result
            (λ region. (region.first ≡ first) × (region.bytes.items ≡ replicate len 0) × (region.rights ≡ rights)) }
    {
        let bytes = vec![in alloc; 0; len as usize]?;
        Ok(Region {
            first,
            bytes,
            rights,
        })
    }

    /// Whether an address is one of its own.
    #[inline(always)]
    fn holds(&self, at: Addr) -> bool
        ensures { result ≡ holds self.now at.0 }
    {
        self.first.0 <= at.0 && ((at.0 - self.first.0) as usize) < self.bytes.len()
    }

    /// The first address of its own from `at` on and below `end`, or else `end`.
    fn first_from(&self, at: u32, end: u32) -> u32
        requires { at ≤ end }
        ensures low { at ≤ result }
        ensures high { result ≤ end }
        ensures before { (a : ℕ) → at ≤ a → a < result → holds self.now a ≡ false }
        ensures here { result < end → holds self.now result ≡ true }
    {
        let start = self.first.0.max(at);
        if self.holds(Addr(start)) {
            start.min(end)
        } else {
            end
        }
    }

    /// Overwrites its bytes from `offset` on.
    #[inline(always)]
    fn put(&mut self, offset: usize, bytes: &[u8])
        requires { offset + length bytes.now ≤ length self.old.bytes.items }
        ensures first { self.new.first ≡ self.old.first }
        ensures rights { self.new.rights ≡ self.old.rights }
        ensures bytes { self.new.bytes.items ≡ take offset self.old.bytes.items ++ (bytes.now ++ drop (offset + length bytes.now) self.old.bytes.items) }
    {
        let end = offset + bytes.len();
        self.bytes[offset..end].copy_from_slice(bytes);
    }
}

/// Where an address stands: in which region, and how far behind its first address.
#[derive(Clone, Copy)]
pub struct Spot {
    region: usize,
    offset: usize,
}

/// How many regions begin at an address or below it.
pub fn count_begun(regions: &[Region], at: Addr) -> usize
    requires { AreLaidOut regions.now }
    ensures begun { IsPartitionPoint (λ region. region.first.0 ≤ at.0) (λ region. at.0 < region.first.0) regions.now result }
    ensures most { result ≤ length regions.now }
{
    regions.partition_point(|region| region.first.0 <= at.0)
}

/// Whether the region of an index, if there is one, begins behind an address.
#[inline(always)]
fn begins_behind(regions: &[Region], index: usize, at: Addr) -> bool
    ensures { result ≡ true → (d : Region) → index < length regions.now → at.0 < (slice_index_or regions.now index d).first.0 }
{
    match regions.get(index) {
        Some(region) => at.0 < region.first.0,
        None => true,
    }
}

/// How many regions begin at an address or below it. The number of the last time is tried first,
/// and the number is kept for the next time.
#[inline]
fn count_again(regions: &[Region], last: &Cell<usize>, at: Addr) -> usize
    requires { AreLaidOut regions.now }
    ensures begun { IsPartitionPoint (λ region. region.first.0 ≤ at.0) (λ region. at.0 < region.first.0) regions.now result }
    ensures most { result ≤ length regions.now }
{
    let guess = last.get();
    if guess > 0
        && guess <= regions.len()
        && regions[guess - 1].first.0 <= at.0
        && begins_behind(regions, guess, at)
    {
        return guess;
    }
    let count = count_begun(regions, at);
    last.set(count);
    count
}

/// The index of the region that holds an address: it is the last that begins there or below.
#[inline(always)]
fn holder_of(regions: &[Region], last: &Cell<usize>, at: Addr) -> Option<usize>
    requires { AreLaidOut regions.now }
    ensures { result ≡ position (λ region. holds region at.0) regions.now }
{
    let begun = count_again(regions, last, at);
    if begun > 0 && regions[begun - 1].holds(at) {
        Some(begun - 1)
    } else {
        None
    }
}

/// Where an address stands, if the access may have its byte.
#[inline(always)]
fn spot_of(
    regions: &[Region],
    last: &Cell<usize>,
    purpose: Purpose,
    at: Addr,
) -> Result<Spot, MemFault>
    requires { AreLaidOut regions.now }
    ensures ok { IfOk result (IsSpot (access_of purpose) regions.now at.0) }
    ensures err { IfErr result (λ fault. fault_at (access_of purpose) (cells_of regions.now) at.0 ≡ Some fault) }
{
    let Some(index) = holder_of(regions, last, at) else {
        return Err(MemFault::Unmapped(at));
    };
    let region = &regions[index];
    purpose.check(region.rights, at)?;
    Ok(Spot {
        region: index,
        offset: (at.0 - region.first.0) as usize,
    })
}

/// The bytes from an address on up to the end of its region.
#[inline(always)]
pub fn run_from<'a>(
    regions: &'a [Region],
    last: &Cell<usize>,
    purpose: Purpose,
    at: Addr,
) -> Result<&'a [u8], MemFault>
    requires { AreLaidOut regions.now }
    ensures ok { IfOk result (λ run. IsRun (access_of purpose) (cells_of regions.now) at.0 run.now) }
    ensures err { IfErr result (λ fault. fault_at (access_of purpose) (cells_of regions.now) at.0 ≡ Some fault) }
{
    let spot = spot_of(regions, last, purpose, at)?;
    Ok(&regions[spot.region].bytes[spot.offset..])
}

/// Reads the bytes from an address on.
pub fn read_runs(
    regions: &[Region],
    last: &Cell<usize>,
    at: Addr,
    out: &mut [u8],
) -> Result<(), MemFault>
    requires { AreLaidOut regions.now }
    ensures answer { result ≡ answer_of tt (first_fault Reading (cells_of regions.now) at.0 (length out.old)) }
    ensures ok { OnOk result (out.new ≡ bytes_from (cells_of regions.now) at.0 (length out.old)) }
    ensures err { OnErr result (out.new ≡ out.old) }
{
    if out.is_empty() {
        return Ok(());
    }
    let run = run_from(regions, last, Purpose::Read, at)?;
    if out.len() <= run.len() {
        out.copy_from_slice(&run[..out.len()]);
        return Ok(());
    }
    let count = run.len();
    let (here, rest) = out.split_at_mut(count);
    read_runs(regions, last, Addr(at.0 + count as u32), rest)?;
    here.copy_from_slice(run);
    Ok(())
}

/// The fault at the first of the bytes from an address on that the access may not have.
pub fn fault_of_runs(
    regions: &[Region],
    last: &Cell<usize>,
    purpose: Purpose,
    at: Addr,
    len: u32,
) -> Option<MemFault>
    requires { AreLaidOut regions.now }
    ensures { result ≡ first_fault (access_of purpose) (cells_of regions.now) at.0 len }
{
    if len == 0 {
        return None;
    }
    match run_from(regions, last, purpose, at) {
        Ok(run) => {
            let count = run.len().min(len as usize) as u32;
            fault_of_runs(regions, last, purpose, Addr(at.0 + count), len - count)
        }
        Err(fault) => Some(fault),
    }
}

/// Reads a run that is found already, and what can be executed of the bytes behind it. Answers
/// how many bytes that are.
pub fn fetch_runs(
    regions: &[Region],
    last: &Cell<usize>,
    at: Addr,
    run: &[u8],
    out: &mut [u8],
) -> usize
    requires laid_out { AreLaidOut regions.now }
    requires run { IsRun Executing (cells_of regions.now) at.0 run.now }
    ensures count { result ≡ executable_run (cells_of regions.now) at.0 (length out.old) }
    ensures front { take result out.new ≡ bytes_from (cells_of regions.now) at.0 result }
    ensures rest { drop result out.new ≡ drop result out.old }
{
    let count = run.len().min(out.len());
    let (front, rest) = out.split_at_mut(count);
    front.copy_from_slice(&run[..count]);
    if rest.is_empty() {
        return count;
    }
    let next = Addr(at.0 + count as u32);
    match run_from(regions, last, Purpose::Execute, next) {
        Ok(more) => count + fetch_runs(regions, last, next, more, rest),
        Err(_) => count,
    }
}

/// Writes the bytes from an address on.
pub fn write_runs(
    regions: &mut [Region],
    last: &Cell<usize>,
    purpose: Purpose,
    at: Addr,
    bytes: &[u8],
) -> Result<(), MemFault>
    requires { AreLaidOut regions.old }
    ensures answer { result ≡ answer_of tt (first_fault (access_of purpose) (cells_of regions.old) at.0 (length bytes.now)) }
    ensures ok { OnOk result (PutsBytes (cells_of regions.old) (cells_of regions.new) at.0 bytes.now) }
    ensures err { OnErr result (regions.new ≡ regions.old) }
    ensures shapes { shapes regions.new ≡ shapes regions.old }
    ensures laid_out { AreLaidOut regions.new }
{
    if bytes.is_empty() {
        return Ok(());
    }
    let spot = spot_of(regions, last, purpose, at)?;
    let count = (regions[spot.region].bytes.len() - spot.offset).min(bytes.len());
    write_runs(
        regions,
        last,
        purpose,
        Addr(at.0 + count as u32),
        &bytes[count..],
    )?;
    regions[spot.region].put(spot.offset, &bytes[..count]);
    Ok(())
}

/// The first address from `at` on and below `end` that some region holds, or else `end`.
pub fn first_held(regions: &[Region], at: u32, end: u32) -> u32
    requires { at ≤ end }
    ensures low { at ≤ result }
    ensures high { result ≤ end }
    ensures before { (a : ℕ) → at ≤ a → a < result → cells_of regions.now a ≡ None }
    ensures here { result < end → is_some (cells_of regions.now result) ≡ true }
{
    let mut first = end;
    for region in regions {
        first = region.first_from(at, first);
    }
    first
}
