//! Named files in memory.

ghost use Rattle.std.specs.Prelude.{◌≡◌, ◌-◌, ◌++◌, length, take, drop, min, OnOk, OnErr};
ghost use Rattle.std.specs.Option.{option_copied};
ghost use Rattle.std.specs.List.{position};
ghost use Rattle.std.specs.String.{string_bytes};
ghost use Rattle.std.specs.Str.{bytes_eq};
ghost use Rattle.std.specs.FinMap as map;
ghost use Rattle.nd_base.specs.Files.{bytes_at};

use crate::byte_string::Bytes;
use crate::fault::OutOfMemory;
use std::alloc::Global;
use std::marker::Model;

/// A file with its name.
#[derive(Debug, Drop)]
struct NamedFile {
    name: String,
    bytes: Bytes,
}

/// Named files, seen as the map from a name to its bytes.
#[derive(Debug, Drop)]
pub struct FileTable {
    files: Vec<NamedFile>,
}

impl Model for FileTable {
    ghost use Rattle.std.specs.Coded.{coded_ℕ, coded_list};
    ghost use Rattle.std.specs.FinMap as map;
    ghost use Rattle.nd_base.specs.Files.{Kept};

    ghost Value = { Kept };

    ghost coded = { map.code (coded_list coded_ℕ) (coded_list coded_ℕ) };

    ghost use Rattle.nd_base.specs.FileTable.{files_of};

    ghost view = { λ t. files_of t.files.items };
}

/// Where the first file of a name stands.
fn place_of(files: &[NamedFile], name: &str) -> Option<usize>
    ensures { result ≡ position (λ file. bytes_eq name.now (string_bytes file.name)) files.now }
{
    files.iter().position(|file| name == file.name.as_str())
}

#[tactic(auto, using(crate::proofs::FileTable::tables))]
impl FileTable {
    /// No files.
    pub fn new(alloc: Global) -> Self
        ensures { result ≡ map.empty }
    {
        FileTable {
            files: Vec::new(alloc),
        }
    }

    /// The bytes of a name, if it has a file.
    pub fn bytes(&self, name: &str) -> Option<&[u8]>
        ensures { option_copied result ≡ map.get self.now name.now }
    {
        let place = place_of(&self.files, name)?;
        Some(self.files[place].bytes.as_slice())
    }

    /// Sets the bytes of a name.
    pub fn put(&mut self, name: &str, bytes: &[u8]) -> Result<(), OutOfMemory>
        ensures ok { OnOk result (self.new ≡ map.insert self.old name.now bytes.now) }
        ensures err { OnErr result (self.new ≡ self.old) }
    {
        let bytes = Bytes::copy(*self.files.allocator(), bytes)?;
        match place_of(&self.files, name) {
            Some(place) => {
                self.files[place].bytes = bytes;
                Ok(())
            }
            None => self.add(name, bytes),
        }
    }

    /// Puts bytes behind the last one of a name, and makes its file where there is none.
    pub fn append(&mut self, name: &str, piece: &[u8]) -> Result<(), OutOfMemory>
        ensures ok { OnOk result (self.new ≡ map.insert self.old name.now (bytes_at self.old name.now ++ piece.now)) }
        ensures err { OnErr result (self.new ≡ self.old) }
    {
        match place_of(&self.files, name) {
            Some(place) => self.files[place].bytes.extend_from_slice(piece),
            None => {
                let bytes = Bytes::copy(*self.files.allocator(), piece)?;
                self.add(name, bytes)
            }
        }
    }

    /// Adds a file whose name is new.
    fn add(&mut self, name: &str, bytes: Bytes) -> Result<(), OutOfMemory>
        requires { map.get self.old name.now ≡ None }
        ensures ok { OnOk result (self.new ≡ map.insert self.old name.now bytes) }
        ensures err { OnErr result (self.new ≡ self.old) }
    {
        let name = String::from_str(*self.files.allocator(), name)?;
        self.files.push(NamedFile { name, bytes })?;
        Ok(())
    }
}

/// Copies bytes of a file from the byte `at` on into the front of a buffer, as many as there are
/// and fit, and answers how many.
pub fn read_from(file: &[u8], at: u64, buf: &mut [u8]) -> usize
    ensures value { result ≡ min (length buf.old) (length file.now - at) }
    ensures bytes { buf.new ≡ take result (drop at file.now) ++ drop result buf.old }
{
    let start = file.len().min(at as usize);
    let count = buf.len().min(file.len() - start);
    buf[..count].copy_from_slice(&file[start..start + count]);
    count
}
