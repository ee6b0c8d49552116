//! An image that was read from a PE32 file.

ghost use Rattle.std.specs.Prelude.{◌≡◌, ◌≢◌, Ok, Err, IfOk, IfErr, MatchResult, map};
ghost use Rattle.pe_image.specs.Grammar.{IsImage};
ghost use Rattle.pe_image.specs.Image.{ImageParts, IsLaidOut, sections_of};
ghost use Rattle.pe_image.specs.Limits.{IsLimited};
ghost use Rattle.pe_image.specs.Reading.{reading};
ghost use Rattle.pe_image.specs.Held.{Holds};

use crate::headers::Section;
use crate::imports::Import;
use crate::reading::{Contents, read_contents};
use crate::refusal::PeRefusal;
use crate::sections::{raw_parts, section_list};
pub use mapping::ImportAddresses;
use nd_base::OutOfMemory;
use std::alloc::Global;
use std::marker::Model;

mod mapping;

/// A driver's image: what its headers say, the bytes that its file has of each part, its
/// relocations and its imports.
#[derive(Drop)]
pub struct Image {
    base: u32,
    entry: u32,
    size: u32,
    header_size: u32,
    headers: Vec<u8>,
    sections: Vec<Section>,
    contents: Vec<Vec<u8>>,
    relocations: Vec<u32>,
    imports: Vec<Import>,
}

impl Model for Image {
    ghost use Rattle.pe_image.specs.Image.{ImageParts};

    ghost Value = { ImageParts };

    ghost use Rattle.pe_image.specs.Inside.{parts_inside, IsKept};

    ghost view = { parts_inside };

    ghost invariant = { IsKept };
}

impl Image {
    /// Reads a PE32 image for i386 of at most 4 MiB, with at most 96 sections and 4,096 imports by
    /// name. Any other file is refused with the first thing that is wrong with it.
    pub fn read(alloc: Global, bytes: &[u8]) -> Result<Image, PeRefusal>
        ensures ok { IfOk result (λ image. reading bytes.now ≡ Ok image) }
        ensures refusal { IfErr result (λ e. e ≢ PeRefusal.OutOfMemory → reading bytes.now ≡ Err e) }
        // What is read is the file's image.
        ensures found { IfOk result (λ image. IsImage bytes.now image) }
        // A file that has an image is read, unless memory runs out.
        ensures only { (image : ImageParts) → IsImage bytes.now image → MatchResult result (λ i. i ≡ image) (λ e. e ≡ PeRefusal.OutOfMemory) }
        // Want of memory is answered only where nothing is wrong with the file.
        ensures memory { IfErr result (λ e. e ≡ PeRefusal.OutOfMemory → (image : ImageParts) × IsImage bytes.now image) }
        ensures laid_out { IfOk result IsLaidOut }
    {
        let contents = read_contents(alloc, bytes)?;
        Ok(Image::keep(alloc, bytes, contents)?)
    }

    fn keep(alloc: Global, bytes: &[u8], contents: Contents<'_>) -> Result<Image, OutOfMemory>
        requires { (image : ImageParts) × IsLaidOut image × IsLimited image × Holds bytes.now contents image }
        ensures { (image : ImageParts) → Holds bytes.now contents.entry image → IfOk result (λ kept. kept ≡ image) }
    {
        let Contents {
            placed,
            relocations,
            imports,
        } = contents;
        let header = &placed.headers.image;
        let kept = bytes.len().min(header.header_size as usize);
        Ok(Image {
            base: header.image_base,
            entry: header.entry,
            size: header.image_size,
            header_size: header.header_size,
            headers: Vec::from_slice(alloc, &bytes[..kept])?,
            sections: section_list(alloc, &placed.parts)?,
            contents: raw_parts(alloc, &placed.parts)?,
            relocations: relocations.finish()?,
            imports: imports.finish()?,
        })
    }

    /// What every image keeps: its layout (sections apart and inside, the entry point in an
    /// executable one, relocations and slots in sections) and its limits. It does nothing.
    pub fn bounds(&self)
        ensures laid_out { IsLaidOut self.now }
        ensures limits { IsLimited self.now }
    {
        let _ = &self.base;
    }

    /// AddressOfEntryPoint, an RVA.
    pub fn entry(&self) -> u32
        ensures value { result ≡ self.now.entry }
        ensures laid_out { IsLaidOut self.now }
    {
        self.entry
    }

    /// ImageBase, an address.
    pub fn base(&self) -> u32
        ensures { result ≡ self.now.base }
    {
        self.base
    }

    /// SizeOfImage, in bytes.
    pub fn size(&self) -> u32
        ensures { result ≡ self.now.size }
    {
        self.size
    }

    /// The sections, in the order of the section table.
    pub fn sections(&self) -> &[Section]
        ensures { result.now ≡ sections_of self.now }
    {
        self.sections.as_slice()
    }

    /// The RVA of each word that is relocated, in the order of the Base Relocation Table.
    pub fn relocs(&self) -> &[u32]
        ensures { result.now ≡ self.now.relocations }
    {
        self.relocations.as_slice()
    }

    /// The imports, in the order of the Import Table.
    pub fn imports(&self) -> &[Import]
        ensures { result.now ≡ self.now.imports }
    {
        self.imports.as_slice()
    }
}
