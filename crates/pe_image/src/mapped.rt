//! What holds of every image that is laid out, once it is mapped.

ghost use Rattle.std.specs.Prelude.{◌≡◌, ◌≢◌, ◌≤◌, ◌<◌, ◌+◌, ◌%◌, ◌^◌, ℕ, List, length, slice_index, slice_index_or, All, None};
ghost use Rattle.nd_mem.specs.Cell.{rights_in};
ghost use Rattle.pe_image.specs.Image.{ImageParts, ImportParts, IsLaidOut, IsOutside, AreWordsApart, word_in, delta, image_cell, image_cells, map_refusal};
ghost use Rattle.pe_image.specs.Limits.{LiesInItsSize};

use nd_mem::region_laws;

/// Relocations and slots map no byte, unmap none and change no rights.
pub fn mapping_keeps_rights()
    ensures { (image : ImageParts) (base : ℕ) (slots : List ℕ) (a : ℕ) → rights_in (image_cells image base slots a) ≡ rights_in (image_cell image base a) }
{}

/// A byte in no relocated word and no slot is the file's, or a zero behind a raw part.
pub fn mapping_keeps_other_bytes()
    ensures { (image : ImageParts) (base : ℕ) (slots : List ℕ) (a : ℕ) → All (λ rva. IsOutside (base + rva) a) image.relocations → All (λ function. IsOutside (base + function.slot) a) image.imports
        → image_cells image base slots a ≡ image_cell image base a }
{}

/// A word that is relocated once, and meets no other relocation and no slot, is the file's with
/// the difference of the bases added.
pub fn relocated_word_is_moved()
    ensures { (image : ImageParts) (base : ℕ) (slots : List ℕ) (k : ℕ) → IsLaidOut image → k < length image.relocations
        → ((j : ℕ) → j < length image.relocations → j ≢ k → AreWordsApart (slice_index image.relocations k) (slice_index image.relocations j))
        → All (λ function. AreWordsApart (slice_index image.relocations k) function.slot) image.imports
        → word_in (image_cells image base slots) (base + slice_index image.relocations k) ≡ (word_in (image_cell image base) (base + slice_index image.relocations k) + delta image base) % 2 ^ 32 }
{}

/// A slot that meets no later one holds its import's address.
pub fn slot_holds_its_address()
    ensures { (image : ImageParts) (base : ℕ) (slots : List ℕ) (k : ℕ) (d : ImportParts) → IsLaidOut image → length slots ≡ length image.imports → k < length image.imports → slice_index slots k < 2 ^ 32
        → ((j : ℕ) → k < j → j < length image.imports → AreWordsApart (slice_index_or image.imports k d).slot (slice_index_or image.imports j d).slot)
        → word_in (image_cells image base slots) (base + (slice_index_or image.imports k d).slot) ≡ slice_index slots k }
{}

/// An image can be mapped wherever its SizeOfImage bytes are free and end at 0xF0000000 or before,
/// and it has nothing outside them. SizeOfImage is at most 4 MiB.
pub fn image_lies_in_its_size()
    ensures { LiesInItsSize }
{
    region_laws();
}

/// So an image fits into empty memory at the driver's usual base, below 0x80500000.
pub fn image_fits_into_empty_memory()
    ensures taken { (image : ImageParts) → IsLaidOut image → map_refusal (λ a. None) 0x80100000 image ≡ None }
    ensures inside { (image : ImageParts) (slots : List ℕ) (a : ℕ) → IsLaidOut image → (0x80100000 ≤ a → 0x80500000 ≤ a) → image_cells image 0x80100000 slots a ≡ None }
{
    region_laws();
}
