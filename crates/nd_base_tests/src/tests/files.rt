//! Files and sinks in memory.

use nd_base::{
    BindingNo, CalmFiles, CalmSink, Files, Gate, IoFault, MemFiles, MemSink, OpenGate, OutOfMemory,
    Sink,
};
use std::alloc::AllocError;
use std::test::Fail;

/// The calls of all four methods have one count: here the second and the sixth fail.
fn are_counted_together(files: &mut MemFiles) -> bool {
    let mut buf = [0u8; 4];
    files.size("a") == Ok(3)
        && files.read("a", 0, &mut buf) == Err(IoFault::Failed)
        && buf == [0, 0, 0, 0]
        && files.create("b") == Ok(())
        && files.append("b", b"one") == Ok(3)
        && files.append("b", b"two") == Ok(3)
        && files.append("b", b"three") == Err(IoFault::Failed)
        && files.get("b") == Some(b"onetwo".as_slice())
        && files.read("b", 4, &mut buf) == Ok(2)
        && buf == [b'w', b'o', 0, 0]
}

#[test]
fn calls_are_counted_together(rt: HostRuntime) -> Result<(), Fail> {
    let mut files = MemFiles::new(rt.alloc());
    files.put("a", b"xyz")?;
    files.fail(2)?;
    files.fail(6)?;
    assert!(rt; are_counted_together(&mut files));
    Ok(())
}

fn are_short_or_missing(files: &mut MemFiles) -> bool {
    let mut buf = [9u8; 2];
    files.read("a", 3, &mut buf) == Ok(0)
        && files.read("a", 0, &mut buf) == Ok(2)
        && buf == [b'x', b'y']
        && files.size("none") == Err(IoFault::Failed)
        && files.read("none", 0, &mut buf) == Err(IoFault::Failed)
        && files.append("new", b"q") == Ok(1)
        && files.get("new") == Some(b"q".as_slice())
        && files.get("none") == None
}

#[test]
fn short_and_missing_files(rt: HostRuntime) -> Result<(), Fail> {
    let mut files = MemFiles::new(rt.alloc());
    files.put("a", b"xyz")?;
    assert!(rt; are_short_or_missing(&mut files));
    Ok(())
}

fn are_calm(files: &mut CalmFiles) -> bool {
    let mut buf = [0u8; 2];
    files.size("a") == Ok(3)
        && files.read("a", 1, &mut buf) == Ok(2)
        && buf == [b'y', b'z']
        && files.size("none") == Ok(0)
        && files.create("a") == Ok(())
        && files.append("a", b"new") == Ok(3)
        && files.get("a") == Some(b"new".as_slice())
}

#[test]
fn calm_files(rt: HostRuntime) -> Result<(), Fail> {
    let mut files = CalmFiles::new(rt.alloc());
    files.put("a", b"xyz")?;
    assert!(rt; are_calm(&mut files));
    Ok(())
}

/// Appends a thousand pieces of 1,000 bytes, and reads the last byte.
fn holds_much(files: &mut MemFiles, piece: &[u8]) -> bool {
    for _ in 0..1000 {
        if files.append("big", piece) != Ok(1000) {
            return false;
        }
    }
    let mut buf = [0u8; 8];
    files.size("big") == Ok(1_000_000)
        && files.read("big", 999_999, &mut buf) == Ok(1)
        && buf[0] == b'x'
}

fn holds_much_calmly(files: &mut CalmFiles, piece: &[u8]) -> bool {
    for _ in 0..1000 {
        if files.append("big", piece) != Ok(1000) {
            return false;
        }
    }
    let mut buf = [0u8; 8];
    files.size("big") == Ok(1_000_000)
        && files.read("big", 999_999, &mut buf) == Ok(1)
        && buf[0] == b'x'
}

#[test]
fn large_files(rt: HostRuntime) -> Result<(), Fail> {
    let piece = [b'x'; 1000];
    let mut files = MemFiles::new(rt.alloc());
    files.put("other", &piece)?;
    assert!(rt; holds_much(&mut files, &piece));
    Ok(())
}

#[test]
fn large_calm_files(rt: HostRuntime) -> Result<(), Fail> {
    let piece = [b'x'; 1000];
    let mut files = CalmFiles::new(rt.alloc());
    files.put("other", &piece)?;
    assert!(rt; holds_much_calmly(&mut files, &piece));
    Ok(())
}

fn fails_once(sink: &mut MemSink) -> bool {
    sink.write(b"ab") == Ok(2)
        && sink.write(b"c") == Ok(1)
        && sink.write(b"d") == Err(IoFault::Failed)
        && sink.write(b"e") == Ok(1)
        && sink.written() == b"abce".as_slice()
}

#[test]
fn sinks(rt: HostRuntime) -> Result<(), Fail> {
    let mut sink = MemSink::new(rt.alloc());
    sink.fail(3)?;
    assert!(rt; fails_once(&mut sink));
    Ok(())
}

fn takes_much(sink: &mut MemSink, piece: &[u8]) -> bool {
    for _ in 0..1000 {
        if sink.write(piece) != Ok(1000) {
            return false;
        }
    }
    sink.written().len() == 1_000_000
}

fn takes_much_calmly(sink: &mut CalmSink, piece: &[u8]) -> bool {
    for _ in 0..1000 {
        if sink.write(piece) != Ok(1000) {
            return false;
        }
    }
    sink.write(b"") == Ok(0) && sink.written().len() == 1_000_000
}

#[test]
fn large_sinks(rt: HostRuntime) {
    let piece = [b'x'; 1000];
    let mut sink = MemSink::new(rt.alloc());
    assert!(rt; takes_much(&mut sink, &piece));
}

#[test]
fn large_calm_sinks(rt: HostRuntime) {
    let piece = [b'x'; 1000];
    let mut sink = CalmSink::new(rt.alloc());
    assert!(rt; takes_much_calmly(&mut sink, &piece));
}

#[test]
fn faults_and_gates(rt: HostRuntime) {
    OpenGate.pass(BindingNo(0), 7);
    assert!(rt; IoFault::from(OutOfMemory::from(AllocError)) == IoFault::Memory);
}

#[test]
fn faults_have_texts(rt: HostRuntime) -> Result<(), Fail> {
    let text = format!(in rt.alloc(); "{OutOfMemory}, {}, {}", IoFault::Failed, IoFault::Memory)?;
    assert!(rt; text.as_str() == "out of memory, the device failed, out of memory");
    Ok(())
}
