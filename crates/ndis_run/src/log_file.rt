//! The file of a log, written entry by entry.

ghost use Rattle.std.specs.Prelude.{◌≡◌, ◌≢◌, ℕ, ◌≤◌, ◌<◌, ◌++◌, [], Some, length, take, IfOk, OnOk, IsErrOf, IsTrue};
ghost use Rattle.std.specs.FinMap.{insert};
ghost use Rattle.nd_base.specs.Files.{Kept, Rose, OnlyWrites};
ghost use Rattle.call_log.specs.Lines.{log_text};
ghost use Rattle.ndis_run.specs.Transfer.{Writes, WritesFront};

use crate::transfer::append_all;
use call_log::{Log, put_line};
use nd_base::laws::{set_files_are_kept, writes_add_up};
use nd_base::{Bytes, Files, IoFault, OutOfMemory};
use std::alloc::Global;

/// Lines are gathered up to this many bytes: a last line of at most 256 still goes with them into
/// one call of `append`.
const GATHERED: usize = 4096 - 256;

/// Puts the lines from entry `from` on into a piece that is empty, until it is large enough or the
/// log ends. Answers the number of the first entry that is left.
fn gather(piece: &mut Bytes, log: &Log, from: u64) -> Result<u64, OutOfMemory>
    requires empty { piece.old ≡ [] }
    requires within { from < length log.now.entries }
    ensures later { IfOk result (λ next. (from < next) × (next ≤ length log.now.entries)) }
    ensures text { IfOk result (λ next. log_text (take next log.now.entries) ≡ log_text (take from log.now.entries) ++ piece.new) }
{
    for next in from..log.len() {
        if piece.len() >= GATHERED {
            return Ok(next);
        }
        let Some(entry) = log.entry(next) else {
            unreachable!();
        };
        put_line(piece, entry)?;
    }
    Ok(log.len())
}

/// Puts a piece of the log's text behind what the file has of it, from entry `from` on. Answers the
/// number of the first entry that is left.
fn append_piece<F: Files>(
    alloc: Global,
    files: &mut F,
    name: &str,
    log: &Log,
    from: u64,
) -> Result<u64, IoFault>
    requires writable { IsTrue (F.may_write files.old name.now) }
    requires within { from < length log.now.entries }
    ensures later { IfOk result (λ next. (from < next) × (next ≤ length log.now.entries)) }
    ensures ok { IfOk result (λ next. (m : Kept) → F.kept files.old ≡ Some (insert m name.now (log_text (take from log.now.entries)))
        → F.kept files.new ≡ Some (insert m name.now (log_text (take next log.now.entries)))) }
    ensures front { (m : Kept) → F.kept files.old ≡ Some (insert m name.now (log_text (take from log.now.entries)))
        → (n : ℕ) × (n ≤ length (log_text log.now.entries)) × (F.kept files.new ≡ Some (insert m name.now (take n (log_text log.now.entries)))) }
    ensures cause { IsErrOf result IoFault.Failed → Rose (F.write_faults files.old) (F.write_faults files.new) }
    ensures quiet { OnOk result (F.write_faults files.new ≡ F.write_faults files.old) }
    ensures only { OnlyWrites F.read_faults F.write_faults F.may_read F.may_write files.old files.new }
{
    writes_add_up::<F>();
    let mut piece = Bytes::new(alloc);
    let next = gather(&mut piece, log, from)?;
    append_all(files, name, piece.as_slice())?;
    Ok(next)
}

/// Makes a file of a log's text, in place of one that has the name. It takes memory for one piece.
pub fn write_log<F: Files>(
    alloc: Global,
    files: &mut F,
    name: &str,
    log: &Log,
) -> Result<(), IoFault>
    requires { IsTrue (F.may_write files.old name.now) }
    ensures ok { OnOk result (Writes (F.kept files.old) (F.kept files.new) name.now (log_text log.now.entries)) }
    ensures front { WritesFront (F.kept files.old) (F.kept files.new) name.now (log_text log.now.entries) }
    ensures cause { IsErrOf result IoFault.Failed → Rose (F.write_faults files.old) (F.write_faults files.new) }
    ensures quiet { OnOk result (F.write_faults files.new ≡ F.write_faults files.old) }
    ensures only { OnlyWrites F.read_faults F.write_faults F.may_read F.may_write files.old files.new }
{
    writes_add_up::<F>();
    files.create(name)?;
    let mut done = 0;
    while done < log.len() {
        done = append_piece(alloc, files, name, log, done)?;
    }
    Ok(())
}
