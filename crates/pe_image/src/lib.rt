//! PE32 driver images for i386: reading a file, and mapping the image into a guest's memory
//! (Microsoft PE/COFF specification).
#![tactic(auto)]

mod gathered;
mod headers;
mod image;
mod imports;
mod lookup;
mod mapped;
mod meaning;
mod reading;
mod refusal;
mod relocations;
mod sections;

pub use headers::Section;
pub use image::{Image, ImportAddresses};
pub use imports::Import;
pub use mapped::{
    image_fits_into_empty_memory, image_lies_in_its_size, mapping_keeps_other_bytes,
    mapping_keeps_rights, relocated_word_is_moved, slot_holds_its_address,
};
pub use meaning::{
    images_are_as_spelled, imports_are_of_descriptors, names_are_as_spelled, no_more_descriptors,
    overlaps_share_an_address, relocations_are_of_blocks,
};
pub use refusal::PeRefusal;
