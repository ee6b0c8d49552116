//! Whole files and whole lines, moved by calls that may each move a part.

ghost use Rattle.std.specs.Prelude.{◌≡◌, ◌≢◌, ℕ, ◌≤◌, ◌<◌, ◌^◌, Some, None, length, IfOk, IfErr, OnOk, OnErr, IsErrOf, IsTrue};
ghost use Rattle.nd_base.specs.Files.{Kept, bytes_at, Rose, OnlyReads, OnlyWrites};
ghost use Rattle.ndis_run.specs.Transfer.{Adds, AddsFront, Appends, AppendsFront};

use nd_base::laws::{looks_add_up, set_files_are_kept, writes_add_up};
use nd_base::{Files, IoFault, Sink};
use std::alloc::{AllocError, Global};

/// Writes all of a piece.
pub fn print<O: Sink>(out: &mut O, piece: &[u8]) -> Result<(), IoFault>
    ensures ok { OnOk result (Adds (O.written out.old) (O.written out.new) piece.now) }
    ensures front { AddsFront (O.written out.old) (O.written out.new) piece.now }
    ensures later { O.faults out.old ≤ O.faults out.new }
    ensures cause { IsErrOf result IoFault.Failed → Rose (O.faults out.old) (O.faults out.new) }
    ensures quiet { OnOk result (O.faults out.new ≡ O.faults out.old) }
{
    let mut done = 0;
    while done < piece.len() {
        let rest = &piece[done..];
        done += out.write(rest)?;
    }
    Ok(())
}

/// How many bytes are appended to a file at a time.
const PIECE: usize = 4096;

/// Puts all of these bytes behind the last byte of a file.
pub fn append_all<F: Files>(files: &mut F, name: &str, bytes: &[u8]) -> Result<(), IoFault>
    requires { IsTrue (F.may_write files.old name.now) }
    ensures ok { OnOk result (Appends (F.kept files.old) (F.kept files.new) name.now bytes.now) }
    ensures front { AppendsFront (F.kept files.old) (F.kept files.new) name.now bytes.now }
    ensures cause { IsErrOf result IoFault.Failed → Rose (F.write_faults files.old) (F.write_faults files.new) }
    ensures quiet { OnOk result (F.write_faults files.new ≡ F.write_faults files.old) }
    ensures only { OnlyWrites F.read_faults F.write_faults F.may_read F.may_write files.old files.new }
{
    writes_add_up::<F>();
    set_files_are_kept();
    let mut done = 0;
    while done < bytes.len() {
        let end = bytes.len().min(done + PIECE);
        let piece = &bytes[done..end];
        done += files.append(name, piece)?;
    }
    Ok(())
}

/// How many bytes of a file are read at a time.
const CHUNK: usize = 65_536;

/// Why a file is not read.
#[derive(Clone, Copy, Debug, PartialEq, Eq)]
pub enum ReadFailure {
    Memory,
    /// A size or read failed.
    Failed,
    /// The file has more bytes than its limit.
    TooLong,
}

impl From<AllocError> for ReadFailure {
    ghost use Rattle.std.specs.Prelude.{◌≡◌};
    ghost use Rattle.ndis_run.specs.declared.transfer.ReadFailure.TheVariants.{Memory};

    ghost from_gives = { λ _ e. e ≡ Memory };

    fn from(_error: AllocError) -> Self {
        ReadFailure::Memory
    }
}

impl From<IoFault> for ReadFailure {
    ghost use Rattle.std.specs.Prelude.{◌≡◌};
    ghost use Rattle.ndis_run.specs.Transfer.{read_failure};

    ghost from_gives = { λ fault e. e ≡ read_failure fault };

    fn from(fault: IoFault) -> Self {
        match fault {
            IoFault::Failed => ReadFailure::Failed,
            IoFault::Memory => ReadFailure::Memory,
        }
    }
}

/// A buffer for one chunk.
fn chunk(alloc: Global) -> Result<Vec<u8>, AllocError>
    ensures { IfOk result (λ buffer. length buffer.items ≡ CHUNK) }
{
    vec![in alloc; 0u8; CHUNK]
}

/// Reads a file to its end through a buffer.
fn read_on<F: Files>(
    alloc: Global,
    files: &mut F,
    name: &str,
    limit: usize,
    buffer: &mut [u8],
) -> Result<Vec<u8>, ReadFailure>
    requires readable { IsTrue (F.may_read files.old name.now) }
    requires limit { limit < 2 ^ 32 }
    requires room { 0 < length buffer.old }
    ensures known { IfOk result (λ bytes. (m : Kept) → F.kept files.old ≡ Some m → bytes.items ≡ bytes_at m name.now) }
    ensures within { IfOk result (λ bytes. length bytes.items ≤ limit) }
    ensures too_long { IsErrOf result ReadFailure.TooLong → (m : Kept) → F.kept files.old ≡ Some m → limit < length (bytes_at m name.now) }
    ensures cause { IsErrOf result ReadFailure.Failed → Rose (F.read_faults files.old) (F.read_faults files.new) }
    ensures quiet { OnOk result (F.read_faults files.new ≡ F.read_faults files.old) }
    ensures quiet_too_long { IsErrOf result ReadFailure.TooLong → F.read_faults files.new ≡ F.read_faults files.old }
    ensures only { OnlyReads F.kept F.read_faults F.write_faults F.may_read F.may_write files.old files.new }
{
    looks_add_up::<F>();
    let mut bytes = Vec::new(alloc);
    loop {
        let count = files.read(name, bytes.len() as u64, buffer)?;
        if count == 0 {
            return Ok(bytes);
        }
        bytes.extend_from_slice(&buffer[..count])?;
        if bytes.len() > limit {
            return Err(ReadFailure::TooLong);
        }
    }
}

/// Reads a file of at most `limit` bytes. One that is longer is not read where its size says so,
/// and else up to the first byte past the limit.
pub fn read_file<F: Files>(
    alloc: Global,
    files: &mut F,
    name: &str,
    limit: usize,
) -> Result<Vec<u8>, ReadFailure>
    requires readable { IsTrue (F.may_read files.old name.now) }
    requires limit { limit < 2 ^ 32 }
    ensures known { IfOk result (λ bytes. (m : Kept) → F.kept files.old ≡ Some m → bytes.items ≡ bytes_at m name.now) }
    ensures within { IfOk result (λ bytes. length bytes.items ≤ limit) }
    ensures too_long { IsErrOf result ReadFailure.TooLong → (m : Kept) → F.kept files.old ≡ Some m → limit < length (bytes_at m name.now) }
    ensures cause { IsErrOf result ReadFailure.Failed → Rose (F.read_faults files.old) (F.read_faults files.new) }
    ensures quiet { OnOk result (F.read_faults files.new ≡ F.read_faults files.old) }
    ensures quiet_too_long { IsErrOf result ReadFailure.TooLong → F.read_faults files.new ≡ F.read_faults files.old }
    ensures only { OnlyReads F.kept F.read_faults F.write_faults F.may_read F.may_write files.old files.new }
{
    looks_add_up::<F>();
    let size = files.size(name)?;
    if size > limit as u64 {
        return Err(ReadFailure::TooLong);
    }
    let mut buffer = chunk(alloc)?;
    read_on(alloc, files, name, limit, &mut buffer)
}
