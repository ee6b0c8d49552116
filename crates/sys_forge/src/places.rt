//! The words by which two byte strings differ.

ghost use Rattle.std.specs.Prelude.{◌≡◌, ◌≤◌, length, take, IfOk, IfSome, OnOk};
ghost use Rattle.std.specs.Str.{bytes_eq};
ghost use Rattle.sys_forge.specs.Moved.{word_moved, with_words};
ghost use Rattle.sys_forge.specs.Places.{noted, IsStep};

use crate::moved::DISTANCE;
use byteorder::{ByteOrder, LittleEndian};
use nd_base::OutOfMemory;
use std::alloc::Global;

/// Whether the first word of the others is the first of the bytes, moved by the distance.
fn is_moved(bytes: &[u8], others: &[u8]) -> bool
    requires bytes { 4 ≤ length bytes.now }
    requires others { 4 ≤ length others.now }
    ensures { result ≡ bytes_eq (take 4 others.now) (word_moved bytes.now) }
{
    let moved = LittleEndian::read_u32(bytes).wrapping_add(DISTANCE);
    &others[..4] == moved.to_le_bytes().as_slice()
}

/// How many bytes of both are one byte that is the same in both, or a word that is moved: none where
/// neither stands there.
fn step(bytes: &[u8], others: &[u8]) -> Option<usize>
    ensures { IfSome result (λ size. IsStep bytes.now others.now size) }
{
    if bytes.is_empty() || others.is_empty() {
        return None;
    }
    if bytes[0] == others[0] {
        return Some(1);
    }
    if bytes.len() >= 4 && others.len() >= 4 && is_moved(bytes, others) {
        Some(4)
    } else {
        None
    }
}

/// Notes the place of a word.
fn note(places: &mut Vec<u32>, at: u32, size: usize) -> Result<(), OutOfMemory>
    ensures { OnOk result (places.new.items ≡ noted places.old.items at size) }
{
    if size == 4 {
        places.push(at)?;
    }
    Ok(())
}

/// The places of the words that are moved in the others: none where they differ elsewhere too.
#[tactic(auto, using(crate::proofs::Differing::found_whole))]
pub fn places(alloc: Global, bytes: &[u8], others: &[u8]) -> Result<Option<Vec<u32>>, OutOfMemory>
    requires { length bytes.now ≤ 0x3FF000 }
    ensures { IfOk result (λ found. IfSome found (λ places. others.now ≡ with_words places.items bytes.now)) }
{
    let mut places = Vec::new(alloc);
    let mut at = 0u32;
    let mut left = bytes;
    let mut ours = others;
    while !left.is_empty() {
        let Some(size) = step(left, ours) else {
            return Ok(None);
        };
        note(&mut places, at, size)?;
        at += size as u32;
        left = left.split_at(size).1;
        ours = ours.split_at(size).1;
    }
    if ours.is_empty() {
        Ok(Some(places))
    } else {
        Ok(None)
    }
}
