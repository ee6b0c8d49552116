//! Images that are shown and run, and sources that are refused. Sizes and places are counted from
//! the encodings of Intel's manual and the layout of docs/ASSEMBLER.md.

use crate::images::{image, is_refused, runs, shows};
use nd_base::Bytes;
use pe_image::Image;
use std::alloc::Global;
use sys_forge::ForgeRefusal;

/// The source of examples/sleep.s.
const SLEEP: &[u8] = b"# DriverEntry of a driver that sleeps for 50 microseconds and then returns \
STATUS_SUCCESS\nstart:\n    push 50\n    call @NdisMSleep\n    xor eax, eax\n    ret 8\n";

/// A call is relocated, and goes through the slot.
#[test]
fn a_source_with_an_import(rt: HostRuntime) {
    let shown = b"image base 80100000 entry 00001000 size 00002000\n\
section .text 00001000 00000070 00000070 rwx\n\
import NDIS.SYS NdisMSleep 00001010\nreloc 00001007\n";
    assert!(rt; shows(rt.alloc(), SLEEP, b"start", shown));
}

/// NdisMSleep at moment 2 for 50 microseconds.
#[test]
fn a_source_runs(rt: HostRuntime) {
    let log = b"enter - 0 driverentry e0000000,e0000008 -\nturn 0 2\n\
call 0 NdisMSleep 00000032\ntime 52\nreply 0 00000000 -\nturn 0 2\nleave 0 00000000\n";
    let line = b"driverentry 00000000 charged 5\n";
    assert!(rt; runs(rt.alloc(), SLEEP, b"start", line, log));
}

/// Two imports, one of them used twice, and words that hold the addresses of labels.
#[test]
fn a_source_with_labels(rt: HostRuntime) {
    let source = b"lock:\ndd 0\nstart:\npush lock\ncall @NdisAllocateSpinLock\npush 1\n\
call @NdisMSleep\npush lock\ncall @NdisAllocateSpinLock\nret 8\ndd start\n";
    let shown = b"image base 80100000 entry 00001004 size 00002000\n\
section .text 00001000 000000b4 000000b4 rwx\n\
import NDIS.SYS NdisAllocateSpinLock 0000102c\nimport NDIS.SYS NdisMSleep 00001030\n\
reloc 00001005\nreloc 0000100b\nreloc 00001016\nreloc 0000101b\nreloc 00001021\nreloc 00001028\n";
    assert!(rt; shows(rt.alloc(), source, b"start", shown));
}

/// The entry is a label behind all bytes.
#[test]
fn a_source_without_tables(rt: HostRuntime) {
    let shown = b"image base 80100000 entry 00001003 size 00002000\n\
section .text 00001000 00000007 00000007 rwx\n";
    assert!(rt; shows(rt.alloc(), b"ret 8\nend:", b"end", shown));
}

/// A source of as many words, each of which holds the address of the first.
fn words(alloc: Global, count: u32) -> Option<Bytes> {
    let mut source = Bytes::copy(alloc, b"first:\n").ok()?;
    for _ in 0..count {
        source.extend_from_slice(b"dd first\n").ok()?;
    }
    Some(source)
}

/// Whether RVAs are so many, four bytes one behind the other from 0x1000 on.
fn are_in_a_row(rvas: &[u32], count: u32) -> bool {
    let mut next = 0x1000u32;
    for rva in rvas {
        if *rva != next {
            return false;
        }
        next = next.wrapping_add(4);
    }
    rvas.len() == count as usize
}

/// Whether an image relocates as many words, one behind the other.
fn relocates(alloc: Global, count: u32) -> bool {
    let Some(source) = words(alloc, count) else {
        return false;
    };
    let Ok(file) = image(alloc, source.as_slice(), b"first") else {
        return false;
    };
    match Image::read(alloc, file.as_slice()) {
        Ok(image) => are_in_a_row(image.relocs(), count),
        Err(_) => false,
    }
}

/// A page has 1,024 of the words; an odd number of entries is filled up.
#[test]
fn blocks_by_page(rt: HostRuntime) {
    for count in [1, 1024, 1025, 2050] {
        assert!(rt; relocates(rt.alloc(), count));
    }
}

/// A letter for each of 16 numbers.
fn letter(number: u32) -> u8 {
    b"abcdefghijklmnop"[(number % 16) as usize]
}

/// A source that calls as many imports, each once.
fn calls(alloc: Global, count: u32) -> Option<Bytes> {
    let mut source = Bytes::copy(alloc, b"start:\n").ok()?;
    for number in 0..count {
        let name = [
            letter(number / 4096),
            letter(number / 256),
            letter(number / 16),
            letter(number),
        ];
        source.extend_from_slice(b"call @").ok()?;
        source.extend_from_slice(&name).ok()?;
        source.push(b'\n').ok()?;
    }
    Some(source)
}

/// A source that calls one import, whose name has as many letters.
fn long_call(alloc: Global, count: u32) -> Option<Bytes> {
    let mut source = Bytes::copy(alloc, b"start:\ncall @").ok()?;
    for _ in 0..count {
        source.push(b'a').ok()?;
    }
    Some(source)
}

/// Whether the first source has an image, and the second is refused so.
fn is_last(alloc: Global, last: Option<Bytes>, next: Option<Bytes>, wanted: ForgeRefusal) -> bool {
    match (last, next) {
        (Some(last), Some(next)) => {
            image(alloc, last.as_slice(), b"start").is_ok()
                && is_refused(alloc, next.as_slice(), b"start", wanted)
        }
        _ => false,
    }
}

/// An image has 4,096 imports, and names of 255 letters, at most.
#[test]
fn limits_of_imports(rt: HostRuntime) {
    let alloc = rt.alloc();
    let wanted = ForgeRefusal::Range(4099);
    assert!(rt; is_last(alloc, calls(alloc, 4096), calls(alloc, 4097), wanted));
    let wanted = ForgeRefusal::Range(3);
    assert!(rt; is_last(alloc, long_call(alloc, 255), long_call(alloc, 256), wanted));
}

#[test]
fn sources_are_refused(rt: HostRuntime) {
    let alloc = rt.alloc();
    assert!(rt; is_refused(alloc, b"ret 8\n", b"start", ForgeRefusal::Line(2)));
    assert!(rt; is_refused(alloc, b"", b"start", ForgeRefusal::Line(1)));
    assert!(rt;
        is_refused(
            alloc,
            b"start:\nmov al, 256\nfrob",
            b"end",
            ForgeRefusal::Range(2)
        )
    );
    assert!(rt; is_refused(alloc, b"start:\nfrob", b"end", ForgeRefusal::Line(2)));
}
