//! Files and standard output of the system that the program runs on.

ghost use Rattle.std.specs.Prelude.{◌≡◌, ◌<◌, ◌≤◌, length, None, true, Ok, Err, IfOk, OnOk, OnErr, IfErr};
ghost use Rattle.nd_base.specs.Files.{last_count};
ghost use Rattle.nd_base.specs.FaultPlan.{raised_by};

use crate::system_calls::{read_from, write_some};
use nd_base::{Files, IoFault, Sink};
use std::fs::{self, File, OpenOptions};
use std::io;

/// How many calls failed. At the last value, 2^64 - 1, no call is made any more: each fails.
#[derive(Drop)]
struct FaultCount {
    faults: u64,
}

impl FaultCount {
    fn new() -> FaultCount
        ensures { result.faults ≡ 0 }
    {
        FaultCount { faults: 0 }
    }

    /// Whether a call may be made: it fails at the last value alone.
    fn check(&self) -> Result<(), IoFault>
        ensures room { OnOk result (self.now.faults < last_count) }
        ensures last { OnErr result (self.now.faults ≡ last_count) }
        ensures cause { IfErr result (λ e. e ≡ IoFault.Failed) }
    {
        if self.faults == u64::MAX {
            return Err(IoFault::Failed);
        }
        Ok(())
    }

    /// Answers what the system answered to a call, and counts it where it failed.
    fn settle<T>(&mut self, outcome: io::Result<T>) -> Result<T, IoFault>
        requires { self.old.faults < last_count }
        ensures value { IfOk outcome (λ value. result ≡ Ok value) }
        ensures fault { OnErr outcome (result ≡ Err IoFault.Failed) }
        ensures failed { IfErr result (λ e. e ≡ IoFault.Failed) }
        ensures counted { self.new.faults ≡ raised_by result self.old.faults }
    {
        match outcome {
            Ok(value) => Ok(value),
            Err(_) => {
                self.faults += 1;
                Err(IoFault::Failed)
            }
        }
    }
}

/// The system's files, by their paths. Nothing is told of their bytes.
///
/// A call that the system fails raises the count of read or of write faults by one, and answers
/// [`IoFault::Failed`]. At 2^64 - 1 faults of a kind every call of that kind fails. No call answers
/// [`IoFault::Memory`].
#[derive(Drop)]
pub struct RealFiles<R> {
    rt: R,
    reads: FaultCount,
    writes: FaultCount,
}

impl<R> RealFiles<R> {
    pub fn new(rt: R) -> RealFiles<R>
        ensures runtime { result.rt ≡ rt }
        ensures no_read_faults { result.reads.faults ≡ 0 }
        ensures no_write_faults { result.writes.faults ≡ 0 }
    {
        RealFiles {
            rt,
            reads: FaultCount::new(),
            writes: FaultCount::new(),
        }
    }
}

impl<R: std::rt::Files> Files for RealFiles<R> {
    ghost kept = { λ _. None };

    ghost read_faults = { λ files. files.reads.faults };

    ghost write_faults = { λ files. files.writes.faults };

    ghost may_read = { λ _ _. true };

    ghost may_write = { λ _ _. true };

    fn size(&mut self, name: &str) -> Result<u64, IoFault>
        ensures failed { IfErr result (λ e. e ≡ IoFault.Failed) }
        ensures counted { self.new.reads.faults ≡ raised_by result self.old.reads.faults }
        ensures same_write_faults { self.new.writes.faults ≡ self.old.writes.faults }
    {
        self.reads.check()?;
        self.reads.settle(length_of(&self.rt, name))
    }

    fn read(&mut self, name: &str, at: u64, buf: &mut [u8]) -> Result<usize, IoFault>
        ensures count { IfOk result (λ n. n ≤ length buf.old) }
        ensures failed { IfErr result (λ e. e ≡ IoFault.Failed) }
        ensures counted { self.new.reads.faults ≡ raised_by result self.old.reads.faults }
        ensures same_write_faults { self.new.writes.faults ≡ self.old.writes.faults }
    {
        self.reads.check()?;
        self.reads.settle(read_at(&self.rt, name, at, buf))
    }

    fn create(&mut self, name: &str) -> Result<(), IoFault>
        ensures failed { IfErr result (λ e. e ≡ IoFault.Failed) }
        ensures counted { self.new.writes.faults ≡ raised_by result self.old.writes.faults }
        ensures same_read_faults { self.new.reads.faults ≡ self.old.reads.faults }
    {
        self.writes.check()?;
        self.writes.settle(make_empty(&self.rt, name))
    }

    fn append(&mut self, name: &str, piece: &[u8]) -> Result<usize, IoFault>
        ensures count { IfOk result (λ n. n ≤ length piece.now) }
        ensures takes { IfOk result (λ n. n ≡ 0 → length piece.now ≡ 0) }
        ensures failed { IfErr result (λ e. e ≡ IoFault.Failed) }
        ensures counted { self.new.writes.faults ≡ raised_by result self.old.writes.faults }
        ensures same_read_faults { self.new.reads.faults ≡ self.old.reads.faults }
    {
        self.writes.check()?;
        self.writes.settle(append_to(&self.rt, name, piece))
    }
}

fn length_of<R: std::rt::Files>(rt: &R, name: &str) -> io::Result<u64> {
    Ok(fs::metadata(rt, name)?.len())
}

fn read_at<R: std::rt::Files>(rt: &R, name: &str, at: u64, buf: &mut [u8]) -> io::Result<usize>
    ensures { IfOk result (λ n. n ≤ length buf.old) }
{
    read_from(&mut File::open(rt, name)?, at, buf)
}

fn make_empty<R: std::rt::Files>(rt: &R, name: &str) -> io::Result<()> {
    File::create(rt, name)?;
    Ok(())
}

fn append_to<R: std::rt::Files>(rt: &R, name: &str, piece: &[u8]) -> io::Result<usize>
    ensures count { IfOk result (λ n. n ≤ length piece.now) }
    ensures takes { IfOk result (λ n. n ≡ 0 → length piece.now ≡ 0) }
{
    let mut file = OpenOptions::new().append(true).create(true).open(rt, name)?;
    write_some(&mut file, piece)
}

/// The system's standard output. Nothing is told of the bytes that were written.
///
/// A call that the system fails raises the count of faults by one, and answers
/// [`IoFault::Failed`]. At 2^64 - 1 faults every call fails. No call answers [`IoFault::Memory`].
#[derive(Drop)]
pub struct RealSink<R> {
    rt: R,
    writes: FaultCount,
}

impl<R> RealSink<R> {
    pub fn new(rt: R) -> RealSink<R>
        ensures runtime { result.rt ≡ rt }
        ensures no_faults { result.writes.faults ≡ 0 }
    {
        RealSink {
            rt,
            writes: FaultCount::new(),
        }
    }
}

impl<R: Print> Sink for RealSink<R> {
    ghost written = { λ _. None };

    ghost faults = { λ sink. sink.writes.faults };

    fn write(&mut self, piece: &[u8]) -> Result<usize, IoFault>
        ensures count { IfOk result (λ n. n ≤ length piece.now) }
        ensures takes { IfOk result (λ n. n ≡ 0 → length piece.now ≡ 0) }
        ensures failed { IfErr result (λ e. e ≡ IoFault.Failed) }
        ensures counted { self.new.writes.faults ≡ raised_by result self.old.writes.faults }
    {
        self.writes.check()?;
        self.writes.settle(print_some(&self.rt, piece))
    }
}

fn print_some<R: Print>(rt: &R, piece: &[u8]) -> io::Result<usize>
    ensures count { IfOk result (λ n. n ≤ length piece.now) }
    ensures takes { IfOk result (λ n. n ≡ 0 → length piece.now ≡ 0) }
{
    write_some(&mut io::writer(rt), piece)
}
