//! Runs of the commands over files and a sink of the tests.

ghost use Rattle.std.specs.Prelude.{ℕ, List, IsTrue};

use crate::drivers::make_small_driver;
use crate::test_devices::{TestFiles, TestSink};
use nd_base::{Files, MemFiles, Sink};
use ndis_run::tool_main;
use std::alloc::{AllocError, Global};

pub const RUN: [&str; 3] = ["run0", "driver.sys", "run.log"];

/// The log of the driver that returns.
pub const RETURN_LOG: &[u8] =
    b"enter - 0 driverentry e0000000,e0000008 -\nturn 0 3\nleave 0 00000000\n";

pub fn words_of(alloc: Global, row: &[&str]) -> Result<Vec<String>, AllocError> {
    let mut words = Vec::new(alloc);
    for word in row {
        words.push(String::from_str(alloc, word)?)?;
    }
    Ok(words)
}

/// The status that these words end with.
pub fn status_of<F: Files, O: Sink>(
    alloc: Global,
    row: &[&str],
    files: &mut F,
    out: &mut O,
) -> Option<u8>
    requires readable { (name : List ℕ) → IsTrue (F.may_read files.old name) }
    requires writable { (name : List ℕ) → IsTrue (F.may_write files.old name) }
{
    match words_of(alloc, row) {
        Ok(words) => Some(tool_main(alloc, &words, files, out)),
        Err(_) => None,
    }
}

/// Whether these words end with this status, and leave this text in the sink.
pub fn ends_on(
    alloc: Global,
    row: &[&str],
    files: &mut TestFiles,
    out: &mut TestSink,
    status: u8,
    text: &[u8],
) -> bool {
    status_of(alloc, row, files, out) == Some(status) && out.sink.written() == text
}

/// Whether these words end with this status, and print this text.
pub fn ends(alloc: Global, row: &[&str], files: &mut TestFiles, status: u8, text: &[u8]) -> bool {
    let mut out = TestSink::new(alloc);
    ends_on(alloc, row, files, &mut out, status, text)
}

/// Whether a file has these bytes.
pub fn holds(files: &MemFiles, name: &str, bytes: &[u8]) -> bool {
    match files.get(name) {
        Some(found) => found == bytes,
        None => false,
    }
}

/// Whether there is no log.
pub fn has_no_log(files: &MemFiles) -> bool {
    files.get("run.log").is_none()
}

/// Puts the small driver of this code there.
pub fn store_driver(files: &mut TestFiles, code: &[u8]) -> bool {
    let mut file = [0u8; 1024];
    make_small_driver(&mut file, code);
    files.files.put("driver.sys", &file).is_ok()
}
