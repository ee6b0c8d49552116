//! What holds of the image of a source once it is mapped.

ghost use Rattle.std.specs.Prelude.{ℕ, List, ◌≡◌, ◌+◌, ◌<◌, length, slice_index, Some};
ghost use Rattle.pe_image.specs.Image.{ImageParts, image_cell};
ghost use Rattle.pe_image.specs.Grammar.{IsImage};
ghost use Rattle.image_forge.specs.Forged.{all_rights, HasText};

/// Where drivers are mapped, the text stands from 0x80101000 on, each byte with all rights. (What
/// the loader then changes are the words of imports: the base is the image's own, so a relocation
/// adds 0.)
pub fn text_stands_in_memory()
    ensures { (file out : List ℕ) (image : ImageParts) (i : ℕ) → IsImage file image → HasText out image → i < length out
        → image_cell image 0x80100000 (0x80101000 + i) ≡ Some (record { byte = slice_index out i; rights = all_rights }) }
{}
