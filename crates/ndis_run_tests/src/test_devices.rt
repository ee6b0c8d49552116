//! Files and a sink in memory that count their calls, may move one byte a call, and may want
//! memory at a call.

ghost use Rattle.std.specs.Prelude.{true, Some};

use nd_base::{Files, IoFault, MemFiles, MemSink, Sink};
use std::alloc::Global;

/// How many calls were made, and how.
#[derive(Clone, Copy)]
pub struct Calls {
    pub count: u64,
    /// The call of this number, from 1, wants memory.
    pub wanting: u64,
    /// At most one byte is moved a call.
    pub bytewise: bool,
}

impl Calls {
    fn new() -> Calls {
        Calls {
            count: 0,
            wanting: 0,
            bytewise: false,
        }
    }

    /// Counts a call, and says whether it wants memory.
    fn next_wants(&mut self) -> bool {
        self.count = self.count.saturating_add(1);
        self.count == self.wanting
    }
}

#[derive(Drop)]
pub struct TestFiles {
    pub files: MemFiles,
    pub calls: Calls,
}

impl TestFiles {
    pub fn new(alloc: Global) -> TestFiles {
        TestFiles {
            files: MemFiles::new(alloc),
            calls: Calls::new(),
        }
    }
}

impl Files for TestFiles {
    ghost kept = { λ t. Some t.files.files };

    ghost read_faults = { λ t. t.files.read_faults };

    ghost write_faults = { λ t. t.files.write_faults };

    ghost may_read = { λ _ _. true };

    ghost may_write = { λ _ _. true };

    fn size(&mut self, name: &str) -> Result<u64, IoFault> {
        if self.calls.next_wants() {
            return Err(IoFault::Memory);
        }
        self.files.size(name)
    }

    fn read(&mut self, name: &str, at: u64, buf: &mut [u8]) -> Result<usize, IoFault> {
        if self.calls.next_wants() {
            return Err(IoFault::Memory);
        }
        if buf.is_empty() || !self.calls.bytewise {
            return self.files.read(name, at, buf);
        }
        let mut byte = [0];
        let count = self.files.read(name, at, &mut byte)?;
        buf[0] = byte[0];
        Ok(count)
    }

    fn create(&mut self, name: &str) -> Result<(), IoFault> {
        if self.calls.next_wants() {
            return Err(IoFault::Memory);
        }
        self.files.create(name)
    }

    fn append(&mut self, name: &str, piece: &[u8]) -> Result<usize, IoFault> {
        if self.calls.next_wants() {
            return Err(IoFault::Memory);
        }
        if piece.is_empty() || !self.calls.bytewise {
            return self.files.append(name, piece);
        }
        self.files.append(name, &piece[..1])
    }
}

#[derive(Drop)]
pub struct TestSink {
    pub sink: MemSink,
    pub calls: Calls,
}

impl TestSink {
    pub fn new(alloc: Global) -> TestSink {
        TestSink {
            sink: MemSink::new(alloc),
            calls: Calls::new(),
        }
    }
}

impl Sink for TestSink {
    ghost written = { λ t. Some t.sink.written };

    ghost faults = { λ t. t.sink.faults };

    fn write(&mut self, piece: &[u8]) -> Result<usize, IoFault> {
        if self.calls.next_wants() {
            return Err(IoFault::Memory);
        }
        if piece.is_empty() || !self.calls.bytewise {
            return self.sink.write(piece);
        }
        self.sink.write(&piece[..1])
    }
}
