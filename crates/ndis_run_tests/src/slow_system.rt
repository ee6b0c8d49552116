//! A system that moves one byte a call and counts its calls.

use std::alloc::Allocator;
use std::cell::Cell;
use std::fmt::Display;
use std::fs::{self, File, Metadata, OpenFile, OpenOptions};
use std::io::{self, ErrorKind, Read, Seek, SeekFrom, Write};
use std::rt::Files;

/// How many calls of each kind were made.
#[derive(Drop)]
pub struct Counts {
    pub sizes: Cell<u64>,
    pub opens: Cell<u64>,
    pub reads: Cell<u64>,
    pub writes: Cell<u64>,
}

impl Counts {
    pub fn new() -> Counts {
        Counts {
            sizes: Cell::new(0),
            opens: Cell::new(0),
            reads: Cell::new(0),
            writes: Cell::new(0),
        }
    }
}

fn count(calls: &Cell<u64>) {
    calls.set(calls.get().saturating_add(1));
}

/// The system's files and standard output, one byte a call.
#[derive(Clone, Copy)]
pub struct SlowSystem<'a> {
    pub rt: HostRuntime,
    pub counts: &'a Counts,
}

#[derive(Drop)]
pub struct SlowFile<'a> {
    file: File,
    counts: &'a Counts,
}

impl Read for SlowFile<'_> {
    fn read(&mut self, buf: &mut [u8]) -> io::Result<usize> {
        count(&self.counts.reads);
        let end = buf.len().min(1);
        self.file.read(&mut buf[..end])
    }
}

impl Write for SlowFile<'_> {
    fn write(&mut self, buf: &[u8]) -> io::Result<usize> {
        count(&self.counts.writes);
        let end = buf.len().min(1);
        self.file.write(&buf[..end])
    }

    fn flush(&mut self) -> io::Result<()> {
        Ok(())
    }
}

impl Seek for SlowFile<'_> {
    fn seek(&mut self, to: SeekFrom) -> io::Result<u64> {
        self.file.seek(to)
    }
}

impl OpenFile for SlowFile<'_> {
    fn metadata(&self) -> io::Result<Metadata> {
        self.file.metadata()
    }

    fn set_len(&self, size: u64) -> io::Result<()> {
        self.file.set_len(size)
    }

    fn sync_all(&self) -> io::Result<()> {
        self.file.sync_all()
    }

    fn sync_data(&self) -> io::Result<()> {
        self.file.sync_data()
    }
}

impl<'a> Files for SlowSystem<'a> {
    type File = SlowFile<'a>;

    type Dir = File;

    fn open_file(&self, how: &OpenOptions, path: &str) -> io::Result<SlowFile<'a>> {
        count(&self.counts.opens);
        Ok(SlowFile {
            file: self.rt.open_file(how, path)?,
            counts: self.counts,
        })
    }

    fn open_dir(&self, _path: &str) -> io::Result<File> {
        Err(ErrorKind::Unsupported.into())
    }

    fn metadata(&self, path: &str) -> io::Result<Metadata> {
        count(&self.counts.sizes);
        fs::metadata(&self.rt, path)
    }

    fn symlink_metadata(&self, _path: &str) -> io::Result<Metadata> {
        Err(ErrorKind::Unsupported.into())
    }

    fn copy(&self, _from: &str, _to: &str) -> io::Result<u64> {
        Err(ErrorKind::Unsupported.into())
    }

    fn rename(&self, _from: &str, _to: &str) -> io::Result<()> {
        Err(ErrorKind::Unsupported.into())
    }

    fn remove_file(&self, _path: &str) -> io::Result<()> {
        Err(ErrorKind::Unsupported.into())
    }

    fn create_dir(&self, _path: &str) -> io::Result<()> {
        Err(ErrorKind::Unsupported.into())
    }

    fn remove_dir(&self, _path: &str) -> io::Result<()> {
        Err(ErrorKind::Unsupported.into())
    }

    fn remove_dir_all<B: Allocator>(&self, _alloc: B, _path: &str) -> io::Result<()> {
        Err(ErrorKind::Unsupported.into())
    }
}

impl Print for SlowSystem<'_> {
    fn print<D: Display + Drop>(&self, _value: D) -> io::Result<()> {
        Err(ErrorKind::Unsupported.into())
    }

    fn println<D: Display + Drop>(&self, _value: D) -> io::Result<()> {
        Err(ErrorKind::Unsupported.into())
    }

    fn write_all(&self, _bytes: &[u8]) -> io::Result<()> {
        Err(ErrorKind::Unsupported.into())
    }

    fn write_some(&self, bytes: &[u8]) -> io::Result<usize> {
        count(&self.counts.writes);
        let end = bytes.len().min(1);
        self.rt.write_some(&bytes[..end])
    }
}
