//! Images from source text: the file of a driver whose code is assembled from lines.
//!
//! The file is built and then read back: it is answered only where the image in it is that of the
//! source (specs/Forged.antt).
#![tactic(auto)]

mod forge;
mod headers;
mod judged;
mod mapped;
mod numbers;
mod section;

pub use forge::{Parts, forge_image};
pub use mapped::text_stands_in_memory;
