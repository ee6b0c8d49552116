//! Files and a sink in memory that never fail but for want of memory.

ghost use Rattle.std.specs.Prelude.{◌≡◌, ◌-◌, ◌++◌, [], ◌≢◌, true, Some, length, take, drop, min, IfOk, OnOk, OnErr};
ghost use Rattle.std.specs.Option.{option_copied};
ghost use Rattle.std.specs.FinMap as map;
ghost use Rattle.nd_base.specs.Files.{bytes_at};

use crate::byte_string::Bytes;
use crate::fault::{IoFault, OutOfMemory};
use crate::file_table::{FileTable, read_from};
use crate::line_sink::Sink;
use crate::named_files::Files;
use std::alloc::Global;
use std::marker::Model;

/// Files in memory, none of whose calls fails. Where there is no file of a name, it has no bytes.
#[derive(Debug, Drop)]
pub struct CalmFiles {
    table: FileTable,
}

impl Model for CalmFiles {
    ghost use Rattle.std.specs.Coded.{coded_ℕ, coded_list};
    ghost use Rattle.std.specs.FinMap as map;
    ghost use Rattle.nd_base.specs.Files.{Kept};

    ghost Value = { Kept };

    ghost coded = { map.code (coded_list coded_ℕ) (coded_list coded_ℕ) };

    ghost view = { λ s. s.table };
}

impl CalmFiles {
    /// No files.
    pub fn new(alloc: Global) -> CalmFiles
        ensures { result ≡ map.empty }
    {
        CalmFiles {
            table: FileTable::new(alloc),
        }
    }

    /// Sets a file.
    pub fn put(&mut self, name: &str, bytes: &[u8]) -> Result<(), OutOfMemory>
        ensures ok { OnOk result (self.new ≡ map.insert self.old name.now bytes.now) }
        ensures err { OnErr result (self.new ≡ self.old) }
    {
        self.table.put(name, bytes)
    }

    /// The bytes of a file.
    pub fn get(&self, name: &str) -> Option<&[u8]>
        ensures { option_copied result ≡ map.get self.now name.now }
    {
        self.table.bytes(name)
    }

    /// The bytes of a name: none where there is no file.
    fn bytes(&self, name: &str) -> &[u8]
        ensures { result.now ≡ bytes_at self.now name.now }
    {
        self.table.bytes(name).unwrap_or(&[])
    }
}

impl Files for CalmFiles {
    ghost kept = { λ s. Some s };

    ghost read_faults = { λ _. 0 };

    ghost write_faults = { λ _. 0 };

    ghost may_read = { λ _ _. true };

    ghost may_write = { λ _ _. true };

    fn size(&mut self, name: &str) -> Result<u64, IoFault>
        ensures value { result ≡ Ok (length (bytes_at self.old name.now)) }
        ensures same { self.new ≡ self.old }
    {
        Ok(self.bytes(name).len() as u64)
    }

    fn read(&mut self, name: &str, at: u64, buf: &mut [u8]) -> Result<usize, IoFault>
        ensures value { result ≡ Ok (min (length buf.old) (length (bytes_at self.old name.now) - at)) }
        ensures bytes { IfOk result (λ n. buf.new ≡ take n (drop at (bytes_at self.old name.now)) ++ drop n buf.old) }
        ensures same { self.new ≡ self.old }
    {
        Ok(read_from(self.bytes(name), at, buf))
    }

    fn create(&mut self, name: &str) -> Result<(), IoFault>
        ensures ok { OnOk result (self.new ≡ map.insert self.old name.now []) }
        ensures err { OnErr result (self.new ≡ self.old) }
        ensures calm { result ≢ Err IoFault.Failed }
    {
        self.table.put(name, &[])?;
        Ok(())
    }

    fn append(&mut self, name: &str, piece: &[u8]) -> Result<usize, IoFault>
        ensures value { IfOk result (λ n. n ≡ length piece.now) }
        ensures ok { OnOk result (self.new ≡ map.insert self.old name.now (bytes_at self.old name.now ++ piece.now)) }
        ensures err { OnErr result (self.new ≡ self.old) }
        ensures calm { result ≢ Err IoFault.Failed }
    {
        self.table.append(name, piece)?;
        Ok(piece.len())
    }
}

/// A sink in memory that never fails but for want of memory, seen as what was written.
#[derive(Debug, Drop)]
pub struct CalmSink {
    bytes: Bytes,
}

impl Model for CalmSink {
    ghost use Rattle.std.specs.Prelude.{List, ℕ};

    ghost Value = { List ℕ };

    ghost view = { λ s. s.bytes };
}

impl CalmSink {
    /// Nothing was written.
    pub fn new(alloc: Global) -> CalmSink
        ensures { result ≡ [] }
    {
        CalmSink {
            bytes: Bytes::new(alloc),
        }
    }

    /// What was written.
    pub fn written(&self) -> &[u8]
        ensures { result.now ≡ self.now }
    {
        self.bytes.as_slice()
    }
}

impl Sink for CalmSink {
    ghost written = { λ s. Some s };

    ghost faults = { λ _. 0 };

    fn write(&mut self, piece: &[u8]) -> Result<usize, IoFault>
        ensures value { IfOk result (λ n. n ≡ length piece.now) }
        ensures ok { OnOk result (self.new ≡ self.old ++ piece.now) }
        ensures err { OnErr result (self.new ≡ self.old) }
        ensures calm { result ≢ Err IoFault.Failed }
    {
        self.bytes.extend_from_slice(piece)?;
        Ok(piece.len())
    }
}
