//! The functions that an image imports (PE/COFF specification, "The .idata Section").

ghost use Rattle.std.specs.Prelude.{◌≡◌, ◌≤◌, ◌<◌, ◌+◌, ◌-◌, [], ◌∷◌, ℕ, List, length, map, All, IfOk, IfSome};
ghost use Rattle.std.specs.Option.{option_map};
ghost use Rattle.pe_image.specs.declared.refusal.PeRefusal.TheVariants.{BadImport};
ghost use Rattle.pe_image.specs.Gathering.{HasGained, Gathers, IsReadInto, Reads};
ghost use Rattle.pe_image.specs.Sections.{seen, IsLow};
ghost use Rattle.pe_image.specs.Lookup.{word_at};
ghost use Rattle.pe_image.specs.Imports.{is_printable, text_from, name_at, named_import, import_at, imports_from, field, descriptor_at, imports_of, descriptors_from, most_descriptors, imports_in};

use crate::gathered::Gathered;
use crate::lookup::{byte_at, word_at};
use crate::refusal::PeRefusal;
use crate::sections::Part;
use arrayvec::ArrayVec;
use nd_base::{Bytes, OutOfMemory};
use std::alloc::Global;

/// The bytes of a name with the zero byte behind it, at most.
const LONGEST_NAME: usize = 256;
/// The bit of a thunk that imports by ordinal.
const BY_ORDINAL: u32 = 0x8000_0000;
/// The imports of an image that is read, at most.
const MOST_IMPORTS: u32 = 4096;
/// The bytes of a descriptor.
const DESCRIPTOR_SIZE: u32 = 20;
/// As many descriptors as 4 MiB have room for.
const MOST_DESCRIPTORS: u32 = 209_715;

/// A name that is judged: as many bytes as it may have at most.
type Name = ArrayVec<u8, LONGEST_NAME>;

/// An imported function.
#[derive(Debug, Drop)]
pub struct Import {
    /// The name of its DLL.
    pub dll: Bytes,
    /// Its own name there.
    pub name: Bytes,
    /// The RVA of the word that gets its address.
    pub slot: u32,
}

/// A descriptor of the Import Table.
#[derive(Clone, Copy)]
struct Descriptor {
    /// The RVA of the thunks.
    thunks: u32,
    /// The RVA of the DLL's name, or 0 behind the last descriptor.
    name: u32,
    /// The RVA of the words that get addresses.
    slots: u32,
}

fn is_printable(byte: u8) -> bool
    ensures { result ≡ is_printable byte }
{
    (0x20..=0x7E).contains(&byte)
}

/// The printable text at an RVA, up to a zero byte.
fn text(parts: &[Part<'_>], rva: u32) -> Result<Name, PeRefusal>
    requires { All IsLow (map seen parts.now) }
    ensures { Reads (λ text. text.items) result (text_from (map seen parts.now) (BadImport rva) rva 256) }
{
    let mut text = Name::new();
    let mut at = rva;
    for _ in 0..LONGEST_NAME {
        let Some(byte) = byte_at(parts, at) else {
            return Err(PeRefusal::BadImport(rva));
        };
        if byte == 0 {
            return Ok(text);
        }
        if !is_printable(byte) {
            return Err(PeRefusal::BadImport(rva));
        }
        text.push(byte);
        at += 1;
    }
    Err(PeRefusal::BadImport(rva))
}

/// The name at an RVA, of 1 to 255 bytes.
#[tactic(auto, unfolding(crate::specs::Imports::name_at))]
fn name(parts: &[Part<'_>], rva: u32) -> Result<Name, PeRefusal>
    requires { All IsLow (map seen parts.now) }
    ensures { Reads (λ name. name.items) result (name_at (map seen parts.now) rva) }
{
    let name = text(parts, rva)?;
    if name.is_empty() {
        return Err(PeRefusal::BadImport(rva));
    }
    Ok(name)
}

/// The word at `rva`, a field of the structure at another RVA.
fn field(parts: &[Part<'_>], structure: u32, rva: u32) -> Result<u32, PeRefusal>
    requires { All IsLow (map seen parts.now) }
    ensures value { result ≡ field (map seen parts.now) structure rva }
    ensures low { IfOk result (λ _. rva + 4 ≤ 0x400000) }
{
    match word_at(parts, rva) {
        Some(word) => Ok(word),
        None => Err(PeRefusal::BadImport(structure)),
    }
}

/// The name of what the thunk at an RVA imports, where this word stands there.
#[tactic(auto, unfolding(crate::specs::Imports::named_import))]
fn named_import(
    parts: &[Part<'_>],
    thunk: u32,
    slot: u32,
    word: u32,
) -> Result<Option<Name>, PeRefusal>
    requires { All IsLow (map seen parts.now) }
    ensures value { (dll : List ℕ) → Reads (option_map (λ name. record { dll = dll; name = name.items; slot = slot })) result (named_import (map seen parts.now) dll thunk slot word) }
    ensures low { IfOk result (λ _. slot + 4 ≤ 0x400000) }
{
    if word >= BY_ORDINAL {
        return Err(PeRefusal::Ordinal(thunk));
    }
    field(parts, slot, slot)?;
    Ok(Some(name(parts, word + 2)?))
}

/// The name of what the thunk at an RVA imports. There is none at the end of the thunks.
#[tactic(auto, unfolding(crate::specs::Imports::import_at))]
fn import_at(parts: &[Part<'_>], thunk: u32, slot: u32) -> Result<Option<Name>, PeRefusal>
    requires { All IsLow (map seen parts.now) }
    ensures value { (dll : List ℕ) → Reads (option_map (λ name. record { dll = dll; name = name.items; slot = slot })) result (import_at (map seen parts.now) dll thunk slot) }
    ensures thunk_low { IfOk result (λ found. IfSome found (λ _. thunk + 4 ≤ 0x400000)) }
    ensures slot_low { IfOk result (λ found. IfSome found (λ _. slot + 4 ≤ 0x400000)) }
{
    let word = field(parts, thunk, thunk)?;
    if word == 0 {
        return Ok(None);
    }
    named_import(parts, thunk, slot, word)
}

impl Import {
    fn copy(alloc: Global, dll: &[u8], name: &[u8], slot: u32) -> Result<Self, OutOfMemory>
        ensures { IfOk result (λ import. import ≡ record { dll = dll.now; name = name.now; slot = slot }) }
    {
        let dll = Bytes::copy(alloc, dll)?;
        let name = Bytes::copy(alloc, name)?;
        Ok(Import { dll, name, slot })
    }
}

/// Puts an import behind the others.
fn put(alloc: Global, imports: &mut Gathered<Import>, dll: &[u8], name: &[u8], slot: u32)
    ensures { HasGained imports.old imports.new (record { dll = dll.now; name = name.now; slot = slot } ∷ []) }
{
    match Import::copy(alloc, dll, name, slot) {
        Ok(import) => imports.push(import),
        Err(OutOfMemory) => imports.lose(),
    }
}

/// Puts the imports of the thunks from an RVA on behind the others, where there is room for
/// `room` of them, and says how much room is left.
fn add_imports(
    alloc: Global,
    parts: &[Part<'_>],
    dll: &[u8],
    descriptor: &Descriptor,
    room: u32,
    imports: &mut Gathered<Import>,
) -> Result<u32, PeRefusal>
    requires { All IsLow (map seen parts.now) }
    ensures { Gathers (λ functions. room - length functions) imports.old imports.new result (imports_from (map seen parts.now) dll.now descriptor.now.thunks descriptor.now.slots room) }
{
    let mut thunk = descriptor.thunks;
    let mut slot = descriptor.slots;
    let mut left = room;
    while let Some(name) = import_at(parts, thunk, slot)? {
        if left == 0 {
            return Err(PeRefusal::TooLarge);
        }
        put(alloc, imports, dll, &name, slot);
        left -= 1;
        thunk += 4;
        slot += 4;
    }
    Ok(left)
}

/// The descriptor at an RVA.
#[tactic(auto, unfolding(crate::specs::Imports::descriptor_at))]
fn descriptor_at(parts: &[Part<'_>], rva: u32) -> Result<Descriptor, PeRefusal>
    requires { All IsLow (map seen parts.now) }
    ensures value { result ≡ descriptor_at (map seen parts.now) rva }
    ensures low { IfOk result (λ _. rva + 20 ≤ 0x400000) }
{
    let original = field(parts, rva, rva)?;
    field(parts, rva, rva + 4)?;
    field(parts, rva, rva + 8)?;
    let name = field(parts, rva, rva + 12)?;
    let slots = field(parts, rva, rva + 16)?;
    let thunks = if original == 0 { slots } else { original };
    Ok(Descriptor {
        thunks,
        name,
        slots,
    })
}

/// Puts the imports of a descriptor behind the others, where there is room for `room` of them,
/// and says how much room is left.
#[tactic(auto, unfolding(crate::specs::Imports::imports_of))]
fn add_imports_of(
    alloc: Global,
    parts: &[Part<'_>],
    descriptor: &Descriptor,
    room: u32,
    imports: &mut Gathered<Import>,
) -> Result<u32, PeRefusal>
    requires { All IsLow (map seen parts.now) }
    ensures { Gathers (λ functions. room - length functions) imports.old imports.new result (imports_of (map seen parts.now) descriptor.now room) }
{
    let dll = name(parts, descriptor.name)?;
    add_imports(alloc, parts, &dll, descriptor, room, imports)
}

/// The imports of the descriptors from an RVA on.
fn imports_behind(
    alloc: Global,
    parts: &[Part<'_>],
    table: u32,
) -> Result<Gathered<Import>, PeRefusal>
    requires { All IsLow (map seen parts.now) }
    ensures { IsReadInto result (descriptors_from (map seen parts.now) table most_descriptors 4096) }
{
    let mut imports = Gathered::new(alloc);
    let mut room = MOST_IMPORTS;
    let mut rva = table;
    for _ in 0..MOST_DESCRIPTORS {
        let descriptor = descriptor_at(parts, rva)?;
        if descriptor.name == 0 {
            return Ok(imports);
        }
        room = add_imports_of(alloc, parts, &descriptor, room, &mut imports)?;
        rva += DESCRIPTOR_SIZE;
    }
    Err(PeRefusal::BadImport(rva))
}

/// The imports of an image whose Import Table lies at an RVA, where that is not 0.
#[tactic(auto, unfolding(crate::specs::Imports::imports_in))]
pub fn imports(alloc: Global, parts: &[Part<'_>], table: u32) -> Result<Gathered<Import>, PeRefusal>
    requires { All IsLow (map seen parts.now) }
    ensures { IsReadInto result (imports_in (map seen parts.now) table) }
{
    if table == 0 {
        return Ok(Gathered::new(alloc));
    }
    imports_behind(alloc, parts, table)
}
