//! Strings of bytes and of 16-bit units.

use nd_base::{Bytes, Wide};
use std::test::Fail;

/// How many units are pushed onto a large string.
const MANY: u32 = 100_000;

fn grows(bytes: &mut Bytes) -> bool {
    bytes.push(b'c').is_ok()
        && bytes.extend_from_slice(b"de").is_ok()
        && bytes.as_slice() == b"abcde".as_slice()
        && bytes.len() == 5
        && !bytes.is_empty()
}

fn grows_large(bytes: &mut Bytes) -> bool {
    for i in 0..MANY {
        if bytes.push((i % 256) as u8).is_err() {
            return false;
        }
    }
    bytes.len() == MANY as usize && bytes.as_slice()[0x1_0203] == 3
}

#[test]
fn byte_strings(rt: HostRuntime) -> Result<(), Fail> {
    let mut bytes = Bytes::copy(rt.alloc(), b"ab")?;
    assert!(rt; grows(&mut bytes));
    let bytes = bytes.copied(rt.alloc())?;
    assert!(rt; bytes.as_slice() == b"abcde".as_slice());
    Ok(())
}

#[test]
fn large_byte_strings(rt: HostRuntime) -> Result<(), Fail> {
    let mut bytes = Bytes::new(rt.alloc());
    assert!(rt; bytes.is_empty() && grows_large(&mut bytes));
    let bytes = bytes.copied(rt.alloc())?;
    assert!(rt; bytes.len() == MANY as usize);
    Ok(())
}

fn grows_wide(wide: &mut Wide) -> bool {
    wide.push(0xffff).is_ok()
        && wide.extend_from_slice(&[0x42]).is_ok()
        && wide.as_slice() == [0x41, 0x3a9, 0xffff, 0x42].as_slice()
        && wide.len() == 4
        && !wide.is_empty()
}

fn grows_wide_large(wide: &mut Wide) -> bool {
    for i in 0..MANY {
        if wide.push((i % 65_536) as u16).is_err() {
            return false;
        }
    }
    wide.len() == MANY as usize && wide.as_slice()[0x1_0203] == 0x203
}

#[test]
fn wide_strings(rt: HostRuntime) -> Result<(), Fail> {
    let mut wide = Wide::copy(rt.alloc(), &[0x41, 0x3a9])?;
    assert!(rt; grows_wide(&mut wide));
    let wide = wide.copied(rt.alloc())?;
    assert!(rt; wide.as_slice() == [0x41, 0x3a9, 0xffff, 0x42].as_slice());
    Ok(())
}

#[test]
fn large_wide_strings(rt: HostRuntime) -> Result<(), Fail> {
    let mut wide = Wide::new(rt.alloc());
    assert!(rt; wide.is_empty() && grows_wide_large(&mut wide));
    let wide = wide.copied(rt.alloc())?;
    assert!(rt; wide.len() == MANY as usize);
    Ok(())
}
