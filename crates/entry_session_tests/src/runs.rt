//! Drivers of one section, and their runs.

ghost use Rattle.std.specs.Prelude.{◌≡◌, ◌<◌, ◌≤◌, length};
ghost use Rattle.nd_base.specs.Layout.{usual};
ghost use Rattle.entry_session.specs.Session.{Setting};

use call_log::{Log, put_line};
use entry_session::{Ending, MOST_BUDGET, Session};
use import_slots::{slot_laws, slots};
use nd_base::{Bytes, Layout};
use pe_image::{Image, ImportAddresses};
use std::alloc::{AllocError, Global};

/// A section that may be executed and read.
pub const READABLE: u32 = 0x6000_0020;

/// A section that may be executed alone.
pub const UNREADABLE: u32 = 0x2000_0020;

/// Puts a piece at its offset, with zeros in front of it.
fn put(file: &mut Vec<u8>, at: usize, piece: &[u8]) -> Result<(), AllocError> {
    file.resize(at, 0)?;
    file.extend_from_slice(piece)
}

/// The headers up to the optional header.
fn put_headers(file: &mut Vec<u8>) -> Result<(), AllocError> {
    put(file, 0, b"MZ")?;
    put(file, 0x3C, &64u32.to_le_bytes())?;
    put(file, 64, b"PE\0\0\x4C\x01\x01\x00")?;
    put(file, 84, &224u16.to_le_bytes())?;
    put(file, 88, &0x10Bu16.to_le_bytes())
}

/// Entry point, base and sizes.
fn put_sizes(file: &mut Vec<u8>) -> Result<(), AllocError> {
    put(file, 88 + 16, &0x1000u32.to_le_bytes())?;
    put(file, 88 + 28, &0x8010_0000u32.to_le_bytes())?;
    put(file, 88 + 56, &0x2000u32.to_le_bytes())?;
    put(file, 88 + 60, &0x200u32.to_le_bytes())?;
    put(file, 88 + 92, &16u32.to_le_bytes())
}

/// The header of a section of so many bytes.
fn put_section(file: &mut Vec<u8>, flags: u32, size: u32) -> Result<(), AllocError> {
    put(file, 312, b".text")?;
    put(file, 312 + 8, &size.to_le_bytes())?;
    put(file, 312 + 12, &0x1000u32.to_le_bytes())?;
    put(file, 312 + 16, &512u32.to_le_bytes())?;
    put(file, 312 + 20, &512u32.to_le_bytes())?;
    put(file, 312 + 36, &flags.to_le_bytes())
}

/// A driver whose one section has these flags and this code of at most 64 bytes; the section has 16
/// bytes where the code has no more.
pub fn put_driver(file: &mut Vec<u8>, flags: u32, code: &[u8]) -> Result<(), AllocError> {
    put_headers(file)?;
    put_sizes(file)?;
    put_section(file, flags, if code.len() <= 16 { 16 } else { 64 })?;
    put(file, 512, code)?;
    file.resize(1024, 0)
}

/// Puts the lines of a log behind the text.
fn put_lines(log: &Log, text: &mut Bytes) -> Option<()> {
    for i in 0..log.len() {
        put_line(text, log.entry(i)?).ok()?;
    }
    Some(())
}

/// How DriverEntry of an image ends, and what it was charged. Its log is put behind the text.
pub fn run(alloc: Global, image: &Image, budget: u32, log: &mut Bytes) -> Option<(Ending, u64)> {
    if budget == 0 || budget > MOST_BUDGET {
        return None;
    }
    slot_laws();
    let slots = slots(alloc, image).ok()?;
    finished(alloc, image, &slots, budget, log)
}

fn finished(
    alloc: Global,
    image: &Image,
    slots: &ImportAddresses,
    budget: u32,
    log: &mut Bytes,
) -> Option<(Ending, u64)>
    ghost setting: { Setting }
    requires given { setting ≡ record { image = image.now; slots = slots.now; budget = budget; layout = usual } }
    requires some { 0 < budget }
    requires most { budget ≤ 8000000 }
    requires slots { length slots.now ≡ length image.now.imports }
{
    let mut session = Session::enter(alloc, image, slots, Layout::usual(), budget).ok()?;
    let ending = session.finish(alloc).ok()?;
    put_lines(&session.log, log)?;
    Some((ending, session.charged))
}
