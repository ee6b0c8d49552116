//! Tests of real files and of standard output.

use crate::drivers::{RETURNS, make_small_driver};
use crate::runs::{RETURN_LOG, status_of};
use crate::slow_system::{Counts, SlowSystem};
use nd_base::{Files, IoFault, Sink};
use ndis_run::system_calls::read_from;
use ndis_run::{RealFiles, RealSink};
use std::alloc::Global;
use std::fmt::Display;
use std::fs;
use std::io::{self, Cursor, ErrorKind, PipeWriter, Write};

/// Whether a file of two pieces is made, has their length, and gives what stands behind four bytes.
fn keeps<R: std::rt::Files>(files: &mut RealFiles<R>, name: &str) -> bool {
    let mut buf = [0u8; 4];
    files.create(name) == Ok(())
        && files.append(name, b"driver") == Ok(6)
        && files.append(name, b" up\n") == Ok(4)
        && files.size(name) == Ok(10)
        && files.read(name, 4, &mut buf) == Ok(4)
        && &buf == b"er u"
}

#[test]
fn keeps_two_pieces(rt: HostRuntime) {
    let mut files = RealFiles::new(&rt);
    assert!(rt; keeps(&mut files, "two_pieces"));
    // Once more, in place of the file that is there.
    assert!(rt; keeps(&mut files, "two_pieces"));
    assert!(rt; fs::remove_file(&rt, "two_pieces").is_ok());
}

/// Whether each call fails on a name where there can be no file.
fn fails_everywhere<R: std::rt::Files>(files: &mut RealFiles<R>, name: &str) -> bool {
    let mut buf = [0u8; 4];
    files.size(name) == Err(IoFault::Failed)
        && files.read(name, 0, &mut buf) == Err(IoFault::Failed)
        && files.create(name) == Err(IoFault::Failed)
        && files.append(name, b"driver") == Err(IoFault::Failed)
}

/// Whether a folder is opened and not read, and a full device opened and not written.
fn fails_behind_the_open<R: std::rt::Files>(files: &mut RealFiles<R>) -> bool {
    let mut buf = [0u8; 4];
    files.read(".", 0, &mut buf) == Err(IoFault::Failed)
        && files.append("/dev/full", b"driver") == Err(IoFault::Failed)
}

#[test]
fn fails_with_the_system(rt: HostRuntime) {
    let mut files = RealFiles::new(&rt);
    assert!(rt; fails_everywhere(&mut files, "no_folder/missing"));
    assert!(rt; fails_behind_the_open(&mut files));
}

#[test]
fn writes_a_line(rt: HostRuntime) {
    let mut sink = RealSink::new(&rt);
    assert!(rt; sink.write(b"a line\n") == Ok(7));
}

/// A system whose standard output is a pipe.
struct Piped {
    to: PipeWriter,
}

impl Print for Piped {
    fn print<D: Display + Drop>(&self, _value: D) -> io::Result<()> {
        Err(ErrorKind::Unsupported.into())
    }

    fn println<D: Display + Drop>(&self, _value: D) -> io::Result<()> {
        Err(ErrorKind::Unsupported.into())
    }

    fn write_all(&self, _bytes: &[u8]) -> io::Result<()> {
        Err(ErrorKind::Unsupported.into())
    }

    fn write_some(&self, bytes: &[u8]) -> io::Result<usize> {
        (&self.to).write(bytes)
    }
}

fn fails_at_a_closed_pipe(rt: &HostRuntime) -> bool {
    let Ok((from, to)) = io::pipe(rt) else {
        return false;
    };
    drop(from);
    let piped = Piped { to };
    let failed = RealSink::new(&piped).write(b"a line\n") == Err(IoFault::Failed);
    let Piped { to: _ } = piped;
    failed
}

#[test]
fn fails_where_nobody_reads(rt: HostRuntime) {
    assert!(rt; fails_at_a_closed_pipe(&rt));
}

/// Whether each call of the system moves one byte, is made once, and is answered as it went.
fn moves_one_byte(slow: &SlowSystem<'_>) -> bool {
    let mut files = RealFiles::new(slow);
    let mut sink = RealSink::new(slow);
    let mut buf = [0u8; 4];
    files.create("one_byte") == Ok(())
        && files.append("one_byte", b"driver") == Ok(1)
        && files.append("one_byte", b"up") == Ok(1)
        && slow.counts.writes.get() == 2
        && files.size("one_byte") == Ok(2)
        && slow.counts.sizes.get() == 1
        && files.read("one_byte", 1, &mut buf) == Ok(1)
        && slow.counts.reads.get() == 1
        && buf[0] == b'u'
        && sink.write(b"a line\n") == Ok(1)
        && slow.counts.writes.get() == 3
}

#[test]
fn answers_what_the_system_took(rt: HostRuntime) {
    let counts = Counts::new();
    assert!(rt;
        moves_one_byte(&SlowSystem {
            rt,
            counts: &counts
        })
    );
    assert!(rt; fs::remove_file(&rt, "one_byte").is_ok());
}

/// Whether a driver runs over this system: its log's 68 bytes and the line's 31 are written one by
/// one, and its size is asked once.
fn runs_one_byte_a_call(alloc: Global, slow: &SlowSystem<'_>) -> bool {
    let mut files = RealFiles::new(slow);
    let mut sink = RealSink::new(slow);
    status_of(
        alloc,
        &["run0", "slow.sys", "slow.log"],
        &mut files,
        &mut sink,
    ) == Some(0)
        && slow.counts.sizes.get() == 1
        && slow.counts.reads.get() == 1025
        && slow.counts.writes.get() == 68 + 31
}

fn is_file(rt: &HostRuntime, name: &str, bytes: &[u8]) -> bool {
    match fs::read(rt, name) {
        Ok(found) => found.as_slice() == bytes,
        Err(_) => false,
    }
}

#[test]
fn runs_over_real_devices(rt: HostRuntime) {
    let counts = Counts::new();
    let mut file = [0u8; 1024];
    make_small_driver(&mut file, &RETURNS);
    assert!(rt; fs::write(&rt, "slow.sys", &file).is_ok());
    assert!(rt;
        runs_one_byte_a_call(
            rt.alloc(),
            &SlowSystem {
                rt,
                counts: &counts
            }
        )
    );
    assert!(rt; is_file(&rt, "slow.log", RETURN_LOG));
    assert!(rt; fs::remove_file(&rt, "slow.sys").is_ok());
    assert!(rt; fs::remove_file(&rt, "slow.log").is_ok());
}

#[test]
fn reads_from_a_place(rt: HostRuntime) {
    let mut buf = [0u8; 8];
    let mut source = Cursor::new(b"driver".as_slice());
    assert!(rt; read_from(&mut source, 2, &mut buf).is_ok_and(|count| count == 4));
    assert!(rt; buf.starts_with(b"iver"));
}
