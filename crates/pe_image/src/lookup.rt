//! What the sections of an image have at an RVA once they are mapped.

ghost use Rattle.std.specs.Prelude.{◌≡◌, ◌≤◌, ◌<◌, ◌+◌, ◌^◌, map, All, IsTrue, IfSome};
ghost use Rattle.std.specs.Option.{option_map};
ghost use Rattle.pe_image.specs.Sections.{seen, IsLow};
ghost use Rattle.pe_image.specs.Lookup.{holds_byte, holds_word, byte_of, half_of, word_of, section_with, has_word, section_byte, word_at};

use crate::sections::Part;
use byteorder::{ByteOrder, LittleEndian};

impl Part<'_> {
    /// The RVA at which the section ends.
    pub fn end(&self) -> u64
        ensures { result ≡ self.now.section.rva + self.now.section.span }
    {
        u64::from(self.section.rva) + u64::from(self.section.span)
    }

    /// Whether the byte at an RVA is one of the section's.
    pub fn holds_byte(&self, rva: u32) -> bool
        ensures { result ≡ holds_byte (seen self.now) rva }
    {
        self.section.rva <= rva && u64::from(rva) < self.end()
    }

    /// Whether all 4 bytes of the word at an RVA are the section's.
    fn holds_word(&self, rva: u64) -> bool
        requires { rva < 2 ^ 33 }
        ensures { result ≡ holds_word (seen self.now) rva }
    {
        u64::from(self.section.rva) <= rva && rva + 4 <= self.end()
    }

    /// The byte that the section has at an RVA.
    fn byte(&self, rva: u32) -> u8
        requires { self.now.section.rva ≤ rva }
        ensures { result ≡ byte_of (seen self.now) rva }
    {
        let offset = rva - self.section.rva;
        self.raw.get(offset as usize).copied().unwrap_or(0)
    }

    /// The number that the section has in the 2 bytes at an RVA.
    #[tactic(auto, unfolding(crate::specs::Lookup::half_of))]
    pub fn half(&self, rva: u32) -> u16
        requires from { self.now.section.rva ≤ rva }
        requires low { rva < 0x400000 }
        ensures { result ≡ half_of (seen self.now) rva }
    {
        LittleEndian::read_u16(&[self.byte(rva), self.byte(rva + 1)])
    }

    /// The number that the section has in the 4 bytes at an RVA.
    #[tactic(auto, unfolding(crate::specs::Lookup::word_of))]
    pub fn word(&self, rva: u32) -> u32
        requires from { self.now.section.rva ≤ rva }
        requires low { rva < 0x400000 }
        ensures { result ≡ word_of (seen self.now) rva }
    {
        LittleEndian::read_u32(&[
            self.byte(rva),
            self.byte(rva + 1),
            self.byte(rva + 2),
            self.byte(rva + 3),
        ])
    }
}

/// The section that has the byte at an RVA.
pub fn section_with<'a>(parts: &[Part<'a>], rva: u32) -> Option<Part<'a>>
    requires { All IsLow (map seen parts.now) }
    ensures value { option_map seen result ≡ section_with (map seen parts.now) rva }
    ensures from { IfSome result (λ part. part.section.rva ≤ rva) }
    ensures to { IfSome result (λ part. rva < part.section.rva + part.section.span) }
    ensures low { IfSome result (λ part. part.section.rva + part.section.span ≤ 0x400000) }
{
    for part in parts {
        if part.holds_byte(rva) {
            return Some(*part);
        }
    }
    None
}

/// Whether all 4 bytes of the word at an RVA are in one section.
pub fn has_word(parts: &[Part<'_>], rva: u64) -> bool
    requires { rva < 2 ^ 33 }
    ensures value { result ≡ has_word (map seen parts.now) rva }
    ensures low { All IsLow (map seen parts.now) → IsTrue result → rva + 4 ≤ 0x400000 }
{
    for part in parts {
        if part.holds_word(rva) {
            return true;
        }
    }
    false
}

/// The byte at an RVA, where a section has it.
#[tactic(auto, unfolding(crate::specs::Lookup::section_byte))]
pub fn byte_at(parts: &[Part<'_>], rva: u32) -> Option<u8>
    requires { All IsLow (map seen parts.now) }
    ensures value { result ≡ section_byte (map seen parts.now) rva }
    ensures low { IfSome result (λ _. rva < 0x400000) }
{
    let part = section_with(parts, rva)?;
    Some(part.byte(rva))
}

/// The word at an RVA, where each of its bytes is in a section.
#[tactic(auto, unfolding(crate::specs::Lookup::word_at))]
pub fn word_at(parts: &[Part<'_>], rva: u32) -> Option<u32>
    requires { All IsLow (map seen parts.now) }
    ensures value { result ≡ word_at (map seen parts.now) rva }
    ensures low { IfSome result (λ _. rva + 4 ≤ 0x400000) }
{
    let first = byte_at(parts, rva)?;
    let second = byte_at(parts, rva + 1)?;
    let third = byte_at(parts, rva + 2)?;
    let fourth = byte_at(parts, rva + 3)?;
    Some(LittleEndian::read_u32(&[first, second, third, fourth]))
}
