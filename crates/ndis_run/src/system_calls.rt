//! Calls of the system's readers and writers, which may give or take a part of what they are asked.

ghost use Rattle.std.specs.Prelude.{◌≡◌, ◌↔◌, ◌≤◌, length, IsOk, IfOk};
ghost use Rattle.std.specs.Io.KnownBytes.{WriteAppends};

use std::io::{self, ErrorKind, Read, Seek, SeekFrom, Write};

/// Reads bytes of a source from its byte `at` on into the front of `buf`, by one seek and one read,
/// and answers how many they are.
pub fn read_from<S: Read + Seek>(source: &mut S, at: u64, buf: &mut [u8]) -> io::Result<usize>
    ensures { IfOk result (λ n. n ≤ length buf.old) }
{
    source.seek(SeekFrom::Start(at))?;
    source.read(buf)
}

/// Writes bytes from the front of `piece` by one write, and answers how many the writer took: an
/// error where it took none of some.
pub fn write_some<W: Write>(target: &mut W, piece: &[u8]) -> io::Result<usize>
    ensures count { IfOk result (λ n. n ≤ length piece.now) }
    ensures takes { IfOk result (λ n. n ≡ 0 → length piece.now ≡ 0) }
    ensures bytes { WriteAppends (W.contents target.old) (W.contents target.new) result piece.now }
{
    let count = target.write(piece)?;
    some_of(count, piece)
}

/// The count of bytes of `piece` that were taken: an error where none of some were.
fn some_of(count: usize, piece: &[u8]) -> io::Result<usize>
    requires { count ≤ length piece.now }
    ensures value { IfOk result (λ n. n ≡ count) }
    ensures takes { IsOk result ↔ (count ≡ 0 → length piece.now ≡ 0) }
{
    if count == 0 && !piece.is_empty() {
        return Err(ErrorKind::WriteZero.into());
    }
    Ok(count)
}
