//! Writing a file of frames.

ghost use Rattle.std.specs.Prelude.{◌≡◌, ◌++◌, ◌%◌, ◌^◌, List, length, IfOk, OnOk};
ghost use Rattle.std.specs.Int.{w32, to_le_bytes};
ghost use Rattle.frame_wire.specs.declared.order.Order.TheVariants.{Little};
ghost use Rattle.frame_wire.specs.declared.arrival.Arrival.{Arrival};
ghost use Rattle.frame_wire.specs.Entries.{entry, spelling};
ghost use Rattle.frame_wire.specs.Captures.{written, CanReturn, rebased, IsSpelled};

use crate::arrival::Arrival;
use nd_base::{Bytes, OutOfMemory};
use std::alloc::Global;

/// The magic number, version 2.4, no zone, no accuracy, a snap length of 65,535 and the link type
/// of Ethernet.
const HEADER: [u8; 24] = [
    0xd4, 0xc3, 0xb2, 0xa1, 2, 0, 4, 0, 0, 0, 0, 0, 0, 0, 0, 0, 0xff, 0xff, 0, 0, 1, 0, 0, 0,
];

fn put_number(out: &mut Bytes, number: u32) -> Result<(), OutOfMemory>
    ensures { OnOk result (out.new ≡ out.old ++ to_le_bytes w32 number) }
{
    out.extend_from_slice(&number.to_le_bytes())
}

/// The low 32 bits of a number.
fn low_half(number: u64) -> u32
    ensures { result ≡ number % 2 ^ 32 }
{
    (number % 0x1_0000_0000) as u32
}

fn put_frame(out: &mut Bytes, frame: &Arrival) -> Result<(), OutOfMemory>
    ensures { OnOk result (out.new ≡ out.old ++ spelling Little (entry frame.now)) }
{
    let len = low_half(frame.bytes.len() as u64);
    put_number(out, low_half(frame.stamp / 1_000_000))?;
    put_number(out, (frame.stamp % 1_000_000) as u32)?;
    put_number(out, len)?;
    put_number(out, len)?;
    out.extend_from_slice(frame.bytes.as_slice())
}

/// The frames as a little-endian file. Seconds and lengths are written modulo 2^32, so that a file
/// of frames beyond the limits of [`round_trip`] does not have them again.
#[tactic(auto, unfolding(crate::specs::Captures::header))]
pub fn write_frames(alloc: Global, frames: &[Arrival]) -> Result<Bytes, OutOfMemory>
    ensures { IfOk result (λ b. b ≡ written frames.now) }
{
    let mut out = Bytes::copy(alloc, &HEADER)?;
    for frame in frames {
        put_frame(&mut out, frame)?;
    }
    Ok(out)
}

/// What was written is read again with all stamps moved by one number, so that the first is
/// 1,000,000: for at most 65,536 frames of 14 to 1,514 bytes, whose stamps do not fall and are below
/// 2^32 seconds.
pub fn round_trip()
    ensures { (fs : List Arrival) → CanReturn fs → IsSpelled (written fs) (rebased fs) }
{}
