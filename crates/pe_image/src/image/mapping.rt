//! The mapping of an image into a guest's memory, as the loader of Windows does it (Microsoft PE/COFF
//! specification, "The .reloc Section" and "The .idata Section").

ghost use Rattle.std.specs.Prelude.{◌≡◌, ◌≢◌, ◌≤◌, ◌<◌, ◌+◌, ◌++◌, ℕ, List, [], ◌∷◌, length, take, replicate, All, Some, None, IfOk, IfErr, OnOk, OnErr};
ghost use Rattle.std.specs.List.{AllPairs};
ghost use Rattle.std.specs.FinMap as map;
ghost use Rattle.std.specs.Option.{option_or};
ghost use Rattle.nd_mem.specs.Space.{region_refusal};
ghost use Rattle.pe_image.specs.Image.{range_cell, delta, image_cells, sections_refusal, map_refusal, sections_of, HasGainedPart};
ghost use Rattle.pe_image.specs.Contents.{written, word_written, word_moved, with_sections, with_relocations, with_addresses, contents_of, filled_cell, AreDisjoint, EndsWithin, WordEndsWithin, SlotEndsWithin};

use crate::headers::{Section, u32_at};
use crate::image::Image;
use crate::imports::Import;
use nd_base::{Addr, OutOfMemory};
use nd_mem::{Memory, RegionRefusal, Rights, region_laws, write_laws};
use std::alloc::{AllocError, Global};
use std::marker::Model;

/// The rights to an image's headers.
const READ_ONLY: Rights = Rights {
    read: true,
    write: false,
    execute: false,
};

/// The addresses of an image's imports, in their order.
#[derive(Debug, Drop)]
pub struct ImportAddresses {
    addresses: Vec<u32>,
}

impl Model for ImportAddresses {
    ghost Value = { List ℕ };

    ghost view = { λ a. a.addresses.items };
}

impl ImportAddresses {
    /// No addresses.
    pub fn new(alloc: Global) -> Self
        ensures { result ≡ [] }
    {
        ImportAddresses {
            addresses: Vec::new(alloc),
        }
    }

    /// Puts an address behind the last one.
    pub fn push(&mut self, address: Addr) -> Result<(), OutOfMemory>
        ensures ok { OnOk result (self.new ≡ self.old ++ address.0 ∷ []) }
        ensures err { OnErr result (self.new ≡ self.old) }
    {
        self.addresses.push(address.0)?;
        Ok(())
    }

    /// How many addresses there are.
    pub fn len(&self) -> usize
        ensures { result ≡ length self.now }
    {
        self.addresses.len()
    }

    /// The addresses.
    pub fn as_slice(&self) -> &[u32]
        ensures { result.now ≡ self.now }
    {
        self.addresses.as_slice()
    }
}

impl Image {
    /// Maps the image at `base`: its headers for reading, each section with its rights, its words
    /// relocated, and the word of each import filled with the address that `slots` has for it.
    /// After want of memory its headers and its first sections may stand, each of them whole and
    /// as the mapped image has it, and each byte that was mapped stays as it was. Any other
    /// refusal changes nothing.
    pub fn map(
        &self,
        alloc: Global,
        base: Addr,
        slots: &ImportAddresses,
        mem: &mut Memory,
    ) -> Result<(), RegionRefusal>
        requires { length slots.now ≡ length self.now.imports }
        ensures ok { OnOk result ((a : ℕ) → map.get mem.new a ≡ option_or (image_cells self.now base.0 slots.now a) (map.get mem.old a)) }
        ensures refusal { IfErr result (λ e. e ≢ RegionRefusal.OutOfMemory → (map_refusal (map.get mem.old) base.0 self.now ≡ Some e) × (mem.new ≡ mem.old)) }
        ensures taken { OnOk result (map_refusal (map.get mem.old) base.0 self.now ≡ None) }
        ensures memory { IfErr result (λ e. e ≡ RegionRefusal.OutOfMemory → map_refusal (map.get mem.old) base.0 self.now ≡ None) }
        ensures kept { OnErr result (HasGainedPart self.now base.0 slots.now (map.get mem.old) (map.get mem.new)) }
    {
        if let Some(refusal) = self.map_refusal(base, mem) {
            return Err(refusal);
        }
        let Ok(contents) = self.contents_at(alloc, base, slots) else {
            return Err(RegionRefusal::OutOfMemory);
        };
        let headers = self.headers.as_slice();
        map_range(alloc, mem, base, self.header_size, headers, READ_ONLY)?;
        map_sections(alloc, mem, base, &self.sections, contents.as_slice())
    }

    fn map_refusal(&self, base: Addr, mem: &Memory) -> Option<RegionRefusal>
        ensures { result ≡ map_refusal (map.get mem.now) base.0 self.now }
    {
        match mem.region_refusal(base, self.header_size) {
            Some(refusal) => Some(refusal),
            None => sections_refusal(self.sections.as_slice(), base, mem),
        }
    }

    /// The bytes of the image as they stand in memory, from RVA 0 on.
    fn contents_at(
        &self,
        alloc: Global,
        base: Addr,
        slots: &ImportAddresses,
    ) -> Result<Vec<u8>, AllocError>
        requires { length slots.now ≡ length self.now.imports }
        ensures { IfOk result (λ contents. contents.items ≡ contents_of self.now base.0 slots.now) }
    {
        let mut contents = vec![in alloc; 0; self.size as usize]?;
        self.lay_out(base, slots, &mut contents);
        Ok(contents)
    }

    /// Puts the image's bytes over zeros.
    fn lay_out(&self, base: Addr, slots: &ImportAddresses, contents: &mut [u8])
        requires many { length slots.now ≡ length self.now.imports }
        requires zeros { contents.old ≡ replicate self.now.size 0 }
        ensures { contents.new ≡ contents_of self.now base.0 slots.now }
    {
        self.place_sections(contents);
        self.apply_relocations(base, contents);
        self.fill_import_table(slots, contents);
    }

    fn place_sections(&self, contents: &mut [u8])
        requires { self.now.size ≤ length contents.old }
        ensures { contents.new ≡ with_sections self.now.sections contents.old }
    {
        for (index, section) in self.sections.iter().enumerate() {
            let bytes = self.contents[index].as_slice();
            put(contents, section.rva as usize, bytes);
        }
    }

    fn apply_relocations(&self, base: Addr, contents: &mut [u8])
        requires { self.now.size ≤ length contents.old }
        ensures { contents.new ≡ with_relocations (delta self.now base.0) self.now.relocations contents.old }
    {
        let difference = base.0.wrapping_sub(self.base);
        relocate(contents, self.relocations.as_slice(), difference);
    }

    fn fill_import_table(&self, slots: &ImportAddresses, contents: &mut [u8])
        requires many { length slots.now ≡ length self.now.imports }
        requires room { self.now.size ≤ length contents.old }
        ensures { contents.new ≡ with_addresses self.now.imports slots.now contents.old }
    {
        fill_slots(contents, self.imports.as_slice(), slots.as_slice());
    }
}

fn put(contents: &mut [u8], at: usize, bytes: &[u8])
    requires { at + length bytes.now ≤ length contents.old }
    ensures { contents.new ≡ written contents.old at bytes.now }
{
    let end = at + bytes.len();
    contents[at..end].copy_from_slice(bytes);
}

fn put_word(contents: &mut [u8], at: usize, word: u32)
    requires { at + 4 ≤ length contents.old }
    ensures { contents.new ≡ word_written contents.old at word }
{
    put(contents, at, &word.to_le_bytes());
}

#[tactic(auto, unfolding(crate::specs::File::u32_at))]
fn move_word(contents: &mut [u8], at: usize, difference: u32)
    requires { at + 4 ≤ length contents.old }
    ensures { contents.new ≡ word_moved difference contents.old at }
{
    let word = u32_at(contents, at).wrapping_add(difference);
    put_word(contents, at, word);
}

/// Adds the difference to the word at each of the RVAs.
fn relocate(contents: &mut [u8], rvas: &[u32], difference: u32)
    requires { All (WordEndsWithin (length contents.old)) rvas.now }
    ensures { contents.new ≡ with_relocations difference rvas.now contents.old }
{
    for rva in rvas {
        move_word(contents, *rva as usize, difference);
    }
}

/// Puts the address of each import into its slot.
fn fill_slots(contents: &mut [u8], imports: &[Import], addresses: &[u32])
    requires many { length addresses.now ≡ length imports.now }
    requires within { All (SlotEndsWithin (length contents.old)) imports.now }
    ensures { contents.new ≡ with_addresses imports.now addresses.now contents.old }
{
    for (index, address) in addresses.iter().enumerate() {
        let slot = imports[index].slot;
        put_word(contents, slot as usize, *address);
    }
}

fn sections_refusal(sections: &[Section], base: Addr, mem: &Memory) -> Option<RegionRefusal>
    ensures { result ≡ sections_refusal (map.get mem.now) base.0 sections.now }
{
    for section in sections {
        if let Some(refusal) = section_refusal(section, base, mem) {
            return Some(refusal);
        }
    }
    None
}

fn section_refusal(section: &Section, base: Addr, mem: &Memory) -> Option<RegionRefusal>
    ensures { result ≡ region_refusal (map.get mem.now) (base.0 + section.now.rva) section.now.span }
{
    match base.0.checked_add(section.rva) {
        Some(at) => mem.region_refusal(Addr(at), section.span),
        None => Some(RegionRefusal::High),
    }
}

/// Adds each section's range, with its bytes of the image's contents.
fn map_sections(
    alloc: Global,
    mem: &mut Memory,
    base: Addr,
    sections: &[Section],
    contents: &[u8],
) -> Result<(), RegionRefusal>
    requires free { sections_refusal (map.get mem.old) base.0 sections.now ≡ None }
    requires within { All (EndsWithin (length contents.now)) sections.now }
    requires apart { AllPairs AreDisjoint sections.now }
    ensures ok { OnOk result ((a : ℕ) → map.get mem.new a ≡ option_or (map.get mem.old a) (filled_cell base.0 contents.now sections.now a)) }
    ensures err { IfErr result (λ e. e ≡ RegionRefusal.OutOfMemory) }
    ensures kept { OnErr result ((n : ℕ) × (n < length sections.now) × ((a : ℕ) → map.get mem.new a ≡ option_or (map.get mem.old a) (filled_cell base.0 contents.now (take n sections.now) a))) }
{
    for section in sections {
        let at = Addr(base.0 + section.rva);
        let start = section.rva as usize;
        let bytes = &contents[start..start + section.span as usize];
        map_range(alloc, mem, at, section.span, bytes, section.rights)?;
    }
    Ok(())
}

/// Adds the range of `len` bytes from `at` on, which begins with `bytes` and goes on with zeros.
fn map_range(
    alloc: Global,
    mem: &mut Memory,
    at: Addr,
    len: u32,
    bytes: &[u8],
    rights: Rights,
) -> Result<(), RegionRefusal>
    requires { length bytes.now ≤ len }
    ensures ok { OnOk result ((a : ℕ) → map.get mem.new a ≡ option_or (map.get mem.old a) (range_cell at.0 len bytes.now rights a)) }
    ensures free { OnOk result (region_refusal (map.get mem.old) at.0 len ≡ None) }
    ensures refusal { IfErr result (λ e. e ≢ RegionRefusal.OutOfMemory → region_refusal (map.get mem.old) at.0 len ≡ Some e) }
    ensures err { OnErr result (mem.new ≡ mem.old) }
{
    region_laws();
    write_laws();
    mem.add_region(alloc, at, len, rights)?;
    mem.place(at, bytes).unwrap();
    Ok(())
}
