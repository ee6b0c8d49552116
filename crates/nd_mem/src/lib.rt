//! Guest memory: a finite map from addresses to a byte and its rights, kept as a list of regions by rising addresses,
//! in which an address is found by halving, or at once in the region that was found last.
#![tactic(auto)]

ghost use Rattle.std.specs.Prelude.{◌≡◌, ℕ, ◌+◌, ◌-◌, ◌≤◌, ◌<◌, ◌++◌, length, take, drop, IfOk, IfErr, OnOk, OnErr, ◌^◌, min, Ok, Err, Some, None, ◌≢◌};
ghost use Rattle.std.specs.FinMap as map;
ghost use Rattle.nd_mem.specs.Regions.{access_of};
ghost use Rattle.nd_mem.specs.Space.{IsCode, IsLow, first_fault, answer_of, bytes_from, put_from, zeros_from, executable_run, region_refusal, fault_at, Any, Reading, Writing, Executing};

use nd_base::Addr;
use regions::Region;
use std::alloc::Global;
use std::cell::Cell;
use std::marker::Model;

mod regions;
mod space_laws;

pub use regions::Purpose;
pub use space_laws::{fault_laws, fetch_laws, look_up_laws, read_laws, region_laws, write_laws};

/// The first address that no region may hold: from here on stand addresses that are served in
/// place of memory.
const END: u64 = 0xF000_0000;

/// What may be done with a byte, as IMAGE_SCN_MEM_READ, IMAGE_SCN_MEM_WRITE and
/// IMAGE_SCN_MEM_EXECUTE allow it of a section (Microsoft PE/COFF specification, "Section Flags").
#[derive(Clone, Copy, Debug, PartialEq, Eq)]
pub struct Rights {
    pub read: bool,
    pub write: bool,
    pub execute: bool,
}

/// Why an access is refused: the first address that is not mapped or lacks the right.
#[derive(Clone, Copy, Debug, PartialEq, Eq)]
pub enum MemFault {
    Unmapped(Addr),
    NotReadable(Addr),
    NotWritable(Addr),
    NotExecutable(Addr),
}

/// Why a region is not added.
#[derive(Clone, Copy, Debug, PartialEq, Eq)]
pub enum RegionRefusal {
    OutOfMemory,
    /// It passes 0xEFFFFFFF.
    High,
    /// The first address of it that is mapped already.
    Overlaps(Addr),
}

/// The memory of a guest: its regions, by rising addresses.
#[derive(Drop)]
pub struct Memory {
    regions: Vec<Region>,
    /// How many regions begin at the address of the last fetch or below it, and of the last other
    /// access. Either is a guess, which is tried before it is taken.
    fetched: Cell<usize>,
    accessed: Cell<usize>,
}

impl Model for Memory {
    ghost use Rattle.std.specs.FinMap as map;
    ghost use Rattle.nd_mem.specs.Cell.{cell_code};
    ghost use Rattle.nd_mem.specs.Space.{Space};
    ghost use Rattle.std.specs.Coded.{coded_ℕ};

    ghost Value = { Space };

    ghost coded = { map.code coded_ℕ cell_code };

    ghost use Rattle.nd_mem.specs.Mapped.{mapped};
    ghost use Rattle.nd_mem.specs.Regions.{cells_of, AreLaidOut};

    ghost view = { λ m. mapped (cells_of m.regions.items) };

    ghost invariant = { λ m. AreLaidOut m.regions.items };
}

impl Memory {
    /// Nothing is ever mapped from 0xF0000000 on.
    pub fn is_low(&self)
        ensures { IsLow (map.get self.now) }
    {
        let _regions = &self.regions;
    }

    /// Nothing is mapped.
    pub fn new(alloc: Global) -> Self
        ensures { result ≡ map.empty }
    {
        Memory {
            regions: Vec::new(alloc),
            fetched: Cell::new(0),
            accessed: Cell::new(0),
        }
    }

    /// Why `len` bytes from `at` on can't be mapped, if they can't.
    pub fn region_refusal(&self, at: Addr, len: u32) -> Option<RegionRefusal>
        ensures { result ≡ region_refusal (map.get self.now) at.0 len }
    {
        let past = u64::from(at.0) + u64::from(len);
        if past > END {
            return Some(RegionRefusal::High);
        }
        let end = past as u32;
        let first = regions::first_held(&self.regions, at.0, end);
        if first < end {
            return Some(RegionRefusal::Overlaps(Addr(first)));
        }
        None
    }

    /// Maps `len` zero bytes from `at` on.
    pub fn add_region(
        &mut self,
        alloc: Global,
        at: Addr,
        len: u32,
        rights: Rights,
    ) -> Result<(), RegionRefusal>
        ensures refusal { IfErr result (λ e. e ≢ RegionRefusal.OutOfMemory → region_refusal (map.get self.old) at.0 len ≡ Some e) }
        ensures memory { IfErr result (λ e. e ≡ RegionRefusal.OutOfMemory → region_refusal (map.get self.old) at.0 len ≡ None) }
        ensures ok { OnOk result ((region_refusal (map.get self.old) at.0 len ≡ None)
            × (self.new ≡ zeros_from self.old at.0 len rights)) }
        ensures err { OnErr result (self.new ≡ self.old) }
        ensures low { OnOk result (IsLow (map.get self.new)) }
    {
        if let Some(refusal) = self.region_refusal(at, len) {
            return Err(refusal);
        }
        if len == 0 {
            return Ok(());
        }
        let Ok(region) = Region::zeroed(alloc, at, len, rights) else {
            return Err(RegionRefusal::OutOfMemory);
        };
        let index = regions::count_begun(&self.regions, at);
        if self.regions.insert(index, region).is_err() {
            return Err(RegionRefusal::OutOfMemory);
        }
        Ok(())
    }

    /// The fault at the first of `len` bytes from `at` on that is not mapped or lacks the right that
    /// the purpose asks for, if there is one.
    pub fn fault(&self, purpose: Purpose, at: Addr, len: u32) -> Option<MemFault>
        ensures { result ≡ first_fault (access_of purpose) (map.get self.now) at.0 len }
    {
        regions::fault_of_runs(&self.regions, &self.accessed, purpose, at, len)
    }

    /// Reads the bytes from `at` on into `out`. Addresses go on from 0xFFFFFFFF at 0.
    #[inline]
    pub fn read(&self, at: Addr, out: &mut [u8]) -> Result<(), MemFault>
        ensures answer { result ≡ answer_of tt (first_fault Reading (map.get self.now) at.0 (length out.old)) }
        ensures ok { OnOk result (out.new ≡ bytes_from (map.get self.now) at.0 (length out.old)) }
        ensures err { OnErr result (out.new ≡ out.old) }
        ensures low { IsLow (map.get self.now) }
    {
        regions::read_runs(&self.regions, &self.accessed, at, out)
    }

    /// Writes the bytes from `at` on, where each may be written.
    #[inline]
    pub fn write(&mut self, at: Addr, bytes: &[u8]) -> Result<(), MemFault>
        ensures answer { result ≡ answer_of tt (first_fault Writing (map.get self.old) at.0 (length bytes.now)) }
        ensures ok { OnOk result (self.new ≡ put_from self.old at.0 bytes.now) }
        ensures err { OnErr result (self.new ≡ self.old) }
        ensures low { IsLow (map.get self.new) }
    {
        regions::write_runs(&mut self.regions, &self.accessed, Purpose::Write, at, bytes)
    }

    /// Writes the bytes from `at` on, whatever the rights there.
    pub fn place(&mut self, at: Addr, bytes: &[u8]) -> Result<(), MemFault>
        ensures answer { result ≡ answer_of tt (first_fault Any (map.get self.old) at.0 (length bytes.now)) }
        ensures ok { OnOk result (self.new ≡ put_from self.old at.0 bytes.now) }
        ensures err { OnErr result (self.new ≡ self.old) }
        ensures low { IsLow (map.get self.new) }
    {
        regions::write_runs(&mut self.regions, &self.accessed, Purpose::Place, at, bytes)
    }

    /// The bytes from `at` on up to the end of its region, which can all be executed.
    #[inline]
    pub fn code(&self, at: Addr) -> Result<&[u8], MemFault>
        ensures ok { IfOk result (λ run. IsCode (map.get self.now) at.0 run.now) }
        ensures err { IfErr result (λ fault. fault_at Executing (map.get self.now) at.0 ≡ Some fault) }
    {
        regions::run_from(&self.regions, &self.fetched, Purpose::Execute, at)
    }

    /// Reads into the front of `out` the bytes from `at` on that can be executed, and answers how
    /// many they are, 1 to 15.
    #[inline]
    pub fn fetch(&self, at: Addr, out: &mut [u8; 15]) -> Result<usize, MemFault>
        ensures answer { result ≡ answer_of (executable_run (map.get self.now) at.0 15) (fault_at Executing (map.get self.now) at.0) }
        ensures ok { IfOk result (λ n. take n out.new ≡ bytes_from (map.get self.now) at.0 n) }
        ensures rest { IfOk result (λ n. drop n out.new ≡ drop n out.old) }
        ensures err { OnErr result (out.new ≡ out.old) }
        ensures low { IsLow (map.get self.now) }
    {
        let run = regions::run_from(&self.regions, &self.fetched, Purpose::Execute, at)?;
        if let Some(code) = run.first_chunk::<15>() {
            *out = *code;
            return Ok(15);
        }
        Ok(regions::fetch_runs(&self.regions, &self.fetched, at, run, out))
    }
}
