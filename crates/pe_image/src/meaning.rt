//! What the definitions of a reading say in the words of the PE/COFF specification.

ghost use Rattle.std.specs.Prelude.{◌≡◌, ◌≤◌, ◌<◌, length, ◌+◌, ◌↔◌, ℕ, true, List, Some, Ok, All};
ghost use Rattle.pe_image.specs.declared.headers.SectionHeader.{SectionHeader};
ghost use Rattle.pe_image.specs.declared.headers.Directory.{Directory};
ghost use Rattle.pe_image.specs.Image.{SectionPart, ImportParts, ImageParts};
ghost use Rattle.pe_image.specs.Sections.{meets, IsLow};
ghost use Rattle.pe_image.specs.Relocations.{relocations_in};
ghost use Rattle.pe_image.specs.Imports.{name_at, descriptors_from, most_descriptors, imports_in};
ghost use Rattle.pe_image.specs.Reading.{reading};
ghost use Rattle.pe_image.specs.Grammar.{IsImage};
ghost use Rattle.pe_image.specs.Spellings.{IsName, IsShared, Block, AreBlocks, Relocate, AreDescriptors, joined};

/// A name is read where it is spelled, and as it is spelled.
pub fn names_are_as_spelled()
    ensures { (parts : List SectionPart) (rva : ℕ) (name : List ℕ) → (name_at parts rva ≡ Ok name) ↔ IsName parts rva name }
{}

/// A section overlaps a range where the two share an address.
pub fn overlaps_share_an_address()
    ensures { (header : SectionHeader) (start end : ℕ) → (meets header start end ≡ true) ↔ ((rva : ℕ) × IsShared header start end rva) }
{}

/// The relocations are those of a list of blocks that stand one behind the other, and where such
/// blocks stand their words are read.
pub fn relocations_are_of_blocks()
    ensures { (parts : List SectionPart) (directory : Directory) (table : SectionPart) (words : List ℕ)
        → (relocations_in parts directory (Some table) ≡ Ok words) ↔ ((blocks : List Block) × AreBlocks table (directory.rva + directory.size) directory.rva blocks × Relocate parts blocks words) }
{}

/// An image of 4 MiB has room for no more descriptors than are read.
pub fn no_more_descriptors()
    ensures standing { (parts : List SectionPart) (rva : ℕ) (lists : List (List ImportParts)) → All IsLow parts → AreDescriptors parts rva lists → length lists < most_descriptors }
    ensures read { (parts : List SectionPart) (rva n left : ℕ) → All IsLow parts → most_descriptors ≤ n → descriptors_from parts rva n left ≡ descriptors_from parts rva most_descriptors left }
{}

/// The imports are those of a list of descriptors that stand one behind the other, each with its
/// thunks, and where such descriptors stand their functions are read, if they are not too many.
pub fn imports_are_of_descriptors()
    ensures { (parts : List SectionPart) (rva : ℕ) (functions : List ImportParts) → 0 < rva
        → (imports_in parts rva ≡ Ok functions) ↔ ((lists : List (List ImportParts)) × AreDescriptors parts rva lists × (functions ≡ joined lists) × (length lists < most_descriptors) × (length functions ≤ 4096)) }
{}

/// The reading gives an image exactly where the file is that of this image, and a file is that of
/// one image alone.
pub fn images_are_as_spelled()
    ensures read { (bytes : List ℕ) (image : ImageParts) → (reading bytes ≡ Ok image) ↔ IsImage bytes image }
    ensures one { (bytes : List ℕ) (first second : ImageParts) → IsImage bytes first → IsImage bytes second → first ≡ second }
{}
