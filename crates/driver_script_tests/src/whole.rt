//! Scripts as long as they may be.

use driver_script::{Script, ScriptRefusal};
use nd_base::BindingNo;
use std::alloc::Global;

/// A comment of 1,000 bytes, its end among them.
fn comment(alloc: Global) -> Option<Vec<u8>> {
    let mut line = Vec::new(alloc);
    line.extend_from_slice(b"# ").ok()?;
    for _ in 0..997u16 {
        line.push(b'.').ok()?;
    }
    line.push(b'\n').ok()?;
    Some(line)
}

/// A script of 20,000 `hold` lines and 948 comments, with so many blanks at its end: 1,048,059 bytes
/// and theirs.
fn long_text(alloc: Global, blanks: u16) -> Option<Vec<u8>> {
    let comment = comment(alloc)?;
    let mut text = Vec::new(alloc);
    text.extend_from_slice(b"adapter 0 x port 0300 irq 5 mac 020000000001\ndriver 0 on 0\n")
        .ok()?;
    for _ in 0..20_000u16 {
        text.extend_from_slice(b"hold\n").ok()?;
    }
    for _ in 0..948u16 {
        text.extend_from_slice(&comment).ok()?;
    }
    for _ in 0..blanks {
        text.push(b' ').ok()?;
    }
    Some(text)
}

fn reads_whole(alloc: Global) -> bool {
    let Some(text) = long_text(alloc, 517) else {
        return false;
    };
    if text.len() != 1_048_576 {
        return false;
    }
    match Script::read(alloc, &text) {
        Ok(script) => script.lines(BindingNo(0)) == 20_000,
        Err(_) => false,
    }
}

fn refuses_longer(alloc: Global) -> bool {
    let Some(text) = long_text(alloc, 518) else {
        return false;
    };
    Script::read(alloc, &text).err() == Some(ScriptRefusal::TooLong)
}

#[test]
fn longest(rt: HostRuntime) {
    assert!(rt; reads_whole(rt.alloc()));
}

#[test]
fn too_long(rt: HostRuntime) {
    assert!(rt; refuses_longer(rt.alloc()));
}
