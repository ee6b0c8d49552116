//! Files in memory, of which some calls are to fail.

ghost use Rattle.std.specs.Prelude.{◌≡◌, ℕ, ◌-◌, ◌++◌, ◌∷◌, [], ◌↔◌, ◌⊎◌, ◌≢◌, List, Bool, true, Option, Some, None, length, take, drop, min, IfOk, OnOk, OnErr, IsErrOf};
ghost use Rattle.std.specs.Option.{option_copied};
ghost use Rattle.std.specs.FinMap as map;
ghost use Rattle.nd_base.specs.Files.{bytes_at};
ghost use Rattle.nd_base.specs.FaultPlan.{IsRefused};
ghost use Rattle.nd_base.specs.MemoryFiles.{after_look, after_write};

use crate::fault::{IoFault, OutOfMemory};
use crate::fault_plan::{FaultPlan, raise};
use crate::file_table::{FileTable, read_from};
use crate::named_files::Files;
use std::alloc::Global;
use std::marker::Model;

/// Files in memory with a list of calls that are to fail. The calls of the four methods of `Files`
/// are counted together, from 1. A call fails too where its count of faults stands at its last
/// value, and size and read where there is no file of the name.
#[derive(Debug, Drop)]
pub struct MemFiles {
    table: FileTable,
    plan: FaultPlan,
    read_faults: u64,
    write_faults: u64,
}

impl Model for MemFiles {
    ghost use Rattle.nd_base.specs.MemoryFiles.{FileState, state_code};

    ghost Value = { FileState };

    ghost coded = { state_code };

    ghost view = { λ s. record { files = s.table; plan = s.plan; read_faults = s.read_faults; write_faults = s.write_faults } };
}

impl MemFiles {
    /// No files, no call that is to fail, and no fault.
    pub fn new(alloc: Global) -> MemFiles
        ensures { result ≡ record { files = map.empty; plan = record { calls = 0; failing = [] }; read_faults = 0; write_faults = 0 } }
    {
        MemFiles {
            table: FileTable::new(alloc),
            plan: FaultPlan::new(alloc),
            read_faults: 0,
            write_faults: 0,
        }
    }

    /// Sets a file. This is no call that counts.
    pub fn put(&mut self, name: &str, bytes: &[u8]) -> Result<(), OutOfMemory>
        ensures ok { OnOk result (self.new ≡ record self.old { files = map.insert self.old.files name.now bytes.now }) }
        ensures err { OnErr result (self.new ≡ self.old) }
    {
        self.table.put(name, bytes)
    }

    /// The call of this number, from 1, is to fail.
    pub fn fail(&mut self, call: u64) -> Result<(), OutOfMemory>
        ensures ok { OnOk result (self.new ≡ record self.old { plan = record self.old.plan { failing = self.old.plan.failing ++ call ∷ [] } }) }
        ensures err { OnErr result (self.new ≡ self.old) }
    {
        self.plan.fail(call)
    }

    /// The bytes of a file. This is no call that counts.
    pub fn get(&self, name: &str) -> Option<&[u8]>
        ensures { option_copied result ≡ map.get self.now.files name.now }
    {
        self.table.bytes(name)
    }

    /// Counts a create or an append, and answers whether it is refused.
    fn count_write(&mut self) -> Result<(), IoFault>
        ensures failed { IsErrOf result IoFault.Failed ↔ IsRefused self.old.plan self.old.write_faults }
        ensures memory { result ≢ Err IoFault.Memory }
        ensures after { self.new ≡ after_write self.old result self.old.files }
    {
        if self.plan.next_fails() || self.write_faults == u64::MAX {
            raise(&mut self.write_faults);
            return Err(IoFault::Failed);
        }
        Ok(())
    }
}

impl Files for MemFiles {
    ghost kept = { λ s. Some s.files };

    ghost read_faults = { λ s. s.read_faults };

    ghost write_faults = { λ s. s.write_faults };

    ghost may_read = { λ _ _. true };

    ghost may_write = { λ _ _. true };

    fn size(&mut self, name: &str) -> Result<u64, IoFault>
        ensures value { IfOk result (λ n. n ≡ length (bytes_at self.old.files name.now)) }
        ensures failed { IsErrOf result IoFault.Failed ↔ (IsRefused self.old.plan self.old.read_faults ⊎ (map.get self.old.files name.now ≡ None)) }
        ensures memory { result ≢ Err IoFault.Memory }
        ensures after { self.new ≡ after_look self.old result }
    {
        let fails = self.plan.next_fails() || self.read_faults == u64::MAX;
        match self.table.bytes(name) {
            Some(bytes) if !fails => Ok(bytes.len() as u64),
            _ => {
                raise(&mut self.read_faults);
                Err(IoFault::Failed)
            }
        }
    }

    fn read(&mut self, name: &str, at: u64, buf: &mut [u8]) -> Result<usize, IoFault>
        ensures value { IfOk result (λ n. n ≡ min (length buf.old) (length (bytes_at self.old.files name.now) - at)) }
        ensures bytes { IfOk result (λ n. buf.new ≡ take n (drop at (bytes_at self.old.files name.now)) ++ drop n buf.old) }
        ensures err { OnErr result (buf.new ≡ buf.old) }
        ensures failed { IsErrOf result IoFault.Failed ↔ (IsRefused self.old.plan self.old.read_faults ⊎ (map.get self.old.files name.now ≡ None)) }
        ensures memory { result ≢ Err IoFault.Memory }
        ensures after { self.new ≡ after_look self.old result }
    {
        let fails = self.plan.next_fails() || self.read_faults == u64::MAX;
        match self.table.bytes(name) {
            Some(bytes) if !fails => Ok(read_from(bytes, at, buf)),
            _ => {
                raise(&mut self.read_faults);
                Err(IoFault::Failed)
            }
        }
    }

    fn create(&mut self, name: &str) -> Result<(), IoFault>
        ensures ok { OnOk result (self.new.files ≡ map.insert self.old.files name.now []) }
        ensures err { OnErr result (self.new.files ≡ self.old.files) }
        ensures failed { IsErrOf result IoFault.Failed ↔ IsRefused self.old.plan self.old.write_faults }
        ensures after { self.new ≡ after_write self.old result self.new.files }
    {
        self.count_write()?;
        self.table.put(name, &[])?;
        Ok(())
    }

    fn append(&mut self, name: &str, piece: &[u8]) -> Result<usize, IoFault>
        ensures value { IfOk result (λ n. n ≡ length piece.now) }
        ensures ok { OnOk result (self.new.files ≡ map.insert self.old.files name.now (bytes_at self.old.files name.now ++ piece.now)) }
        ensures err { OnErr result (self.new.files ≡ self.old.files) }
        ensures failed { IsErrOf result IoFault.Failed ↔ IsRefused self.old.plan self.old.write_faults }
        ensures after { self.new ≡ after_write self.old result self.new.files }
    {
        self.count_write()?;
        self.table.append(name, piece)?;
        Ok(piece.len())
    }
}
