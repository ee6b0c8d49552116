//! The base relocations of an image (PE/COFF specification, "The .reloc Section").

ghost use Rattle.std.specs.Prelude.{◌≡◌, ◌≤◌, ◌<◌, ◌+◌, ◌*◌, map, All, IfOk, IfSome};
ghost use Rattle.std.specs.Option.{option_map};
ghost use Rattle.pe_image.specs.Gathering.{HasGained, Gathers, IsReadInto, Reads};
ghost use Rattle.pe_image.specs.Sections.{seen, IsLow};
ghost use Rattle.pe_image.specs.Lookup.{word_of};
ghost use Rattle.pe_image.specs.Relocations.{relocated_word, listed, entries_from, is_over, is_block, block_at, blocks_from, relocation_section, relocations_in};

use crate::gathered::Gathered;
use crate::headers::{BASE_RELOCATION_TABLE, Directory};
use crate::lookup::{has_word, section_with};
use crate::refusal::PeRefusal;
use crate::sections::Part;
use std::alloc::Global;

/// The type of an entry that says nothing, IMAGE_REL_BASED_ABSOLUTE.
const ABSOLUTE: u16 = 0;
/// The type of an entry that relocates a word of 4 bytes, IMAGE_REL_BASED_HIGHLOW.
const HIGHLOW: u16 = 3;
/// The bytes of a block in front of its entries.
const BLOCK_HEADER_SIZE: u32 = 8;

/// The word that an entry at `rva` relocates, if it does.
#[tactic(auto, unfolding(crate::specs::Relocations::relocated_word))]
fn relocated_word(
    parts: &[Part<'_>],
    page: u32,
    rva: u32,
    entry: u16,
) -> Result<Option<u32>, PeRefusal>
    requires { All IsLow (map seen parts.now) }
    ensures { result ≡ relocated_word (map seen parts.now) page rva entry }
{
    let kind = entry / 4096;
    if kind == ABSOLUTE {
        return Ok(None);
    }
    let word = u64::from(page) + u64::from(entry % 4096);
    if kind != HIGHLOW || !has_word(parts, word) {
        return Err(PeRefusal::BadReloc(rva));
    }
    Ok(Some(word as u32))
}

/// Puts a word behind the others, where there is one.
fn keep(words: &mut Gathered<u32>, word: Option<u32>)
    ensures { HasGained words.old words.new (listed word) }
{
    if let Some(word) = word {
        words.push(word);
    }
}

/// Puts the words behind the others that `count` entries from `rva` on relocate.
fn add_entries(
    parts: &[Part<'_>],
    table: &Part<'_>,
    page: u32,
    rva: u32,
    count: u32,
    words: &mut Gathered<u32>,
) -> Result<(), PeRefusal>
    requires low { All IsLow (map seen parts.now) }
    requires from { table.now.section.rva ≤ rva }
    requires to { rva + 2 * count ≤ 0x400000 }
    ensures { Gathers (λ _. tt) words.old words.new result (entries_from (map seen parts.now) (seen table.now) page rva count) }
{
    let mut at = rva;
    for _ in 0..count {
        let word = relocated_word(parts, page, at, table.half(at))?;
        keep(words, word);
        at += 2;
    }
    Ok(())
}

/// Whether no block stands at `rva` in a table that ends at `end`.
fn is_over(table: &Part<'_>, end: u32, rva: u32) -> bool
    requires from { table.now.section.rva ≤ rva }
    requires to { rva ≤ end }
    requires low { end ≤ 0x400000 }
    ensures { result ≡ is_over (seen table.now) end rva }
{
    end < rva + BLOCK_HEADER_SIZE || (table.word(rva) == 0 && table.word(rva + 4) == 0)
}

/// Whether a block of this size is one.
fn is_block(end: u32, rva: u32, size: u32) -> bool
    ensures { result ≡ is_block end rva size }
{
    size >= BLOCK_HEADER_SIZE && size % 2 == 0 && u64::from(rva) + u64::from(size) <= u64::from(end)
}

/// Puts the words behind the others that the block at `rva` relocates, and says where it ends.
#[tactic(auto, unfolding(crate::specs::Relocations::block_at))]
fn add_block(
    parts: &[Part<'_>],
    table: &Part<'_>,
    end: u32,
    rva: u32,
    words: &mut Gathered<u32>,
) -> Result<u32, PeRefusal>
    requires parts { All IsLow (map seen parts.now) }
    requires from { table.now.section.rva ≤ rva }
    requires to { rva + 8 ≤ end }
    requires low { end ≤ 0x400000 }
    ensures words { Gathers (λ _. rva + word_of (seen table.now) (rva + 4)) words.old words.new result (block_at (map seen parts.now) (seen table.now) end rva) }
    ensures later { IfOk result (λ next. rva < next) }
    ensures within { IfOk result (λ next. next ≤ end) }
{
    let page = table.word(rva);
    let size = table.word(rva + 4);
    if !is_block(end, rva, size) {
        return Err(PeRefusal::BadReloc(rva));
    }
    let count = (size - BLOCK_HEADER_SIZE) / 2;
    add_entries(parts, table, page, rva + BLOCK_HEADER_SIZE, count, words)?;
    Ok(rva + size)
}

/// The words that a table of `size` bytes at `rva` relocates.
fn relocated_words(
    alloc: Global,
    parts: &[Part<'_>],
    table: &Part<'_>,
    rva: u32,
    size: u32,
) -> Result<Gathered<u32>, PeRefusal>
    requires parts { All IsLow (map seen parts.now) }
    requires from { table.now.section.rva ≤ rva }
    requires low { rva + size ≤ 0x400000 }
    ensures { IsReadInto result (blocks_from (map seen parts.now) (seen table.now) (rva + size) rva size) }
{
    let end = rva + size;
    let mut words = Gathered::new(alloc);
    let mut at = rva;
    while !is_over(table, end, at) {
        at = add_block(parts, table, end, at, &mut words)?;
    }
    Ok(words)
}

/// The section that has all of the Base Relocation Table, where there is one.
#[tactic(auto, unfolding(crate::specs::Relocations::relocation_section))]
pub fn relocation_section<'a>(
    parts: &[Part<'a>],
    directory: &Directory,
) -> Result<Option<Part<'a>>, PeRefusal>
    requires { All IsLow (map seen parts.now) }
    ensures value { Reads (λ table. option_map seen table) result (relocation_section (map seen parts.now) directory.now) }
    ensures from { IfOk result (λ table. IfSome table (λ part. part.section.rva ≤ directory.now.rva)) }
    ensures low { IfOk result (λ table. IfSome table (λ _. directory.now.rva + directory.now.size ≤ 0x400000)) }
{
    if directory.rva == 0 {
        return Ok(None);
    }
    let Some(part) = section_with(parts, directory.rva) else {
        return Err(PeRefusal::BadDirectory(BASE_RELOCATION_TABLE));
    };
    if u64::from(directory.rva) + u64::from(directory.size) > part.end() {
        return Err(PeRefusal::BadDirectory(BASE_RELOCATION_TABLE));
    }
    Ok(Some(part))
}

/// The words that the Base Relocation Table relocates, in order.
#[tactic(auto, unfolding(crate::specs::Relocations::relocations_in))]
pub fn relocations(
    alloc: Global,
    parts: &[Part<'_>],
    directory: &Directory,
    table: &Option<Part<'_>>,
) -> Result<Gathered<u32>, PeRefusal>
    requires parts { All IsLow (map seen parts.now) }
    requires from { IfSome table.now (λ part. part.section.rva ≤ directory.now.rva) }
    requires low { IfSome table.now (λ _. directory.now.rva + directory.now.size ≤ 0x400000) }
    ensures { IsReadInto result (relocations_in (map seen parts.now) directory.now (option_map seen table.now)) }
{
    match table {
        None => Ok(Gathered::new(alloc)),
        Some(part) => relocated_words(alloc, parts, part, directory.rva, directory.size),
    }
}
