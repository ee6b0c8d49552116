//! The assembler: bytes from source text.
//!
//! The text stands at 0x80101000, and behind it one zero word for each import name, in the order of
//! first use. What it is that bytes are those of a source is a relation (specs/Assembly.antt): each
//! line has its bytes, labels are the addresses at which they stand, and an instruction's bytes spell
//! it, and so decode to it. With it come the places of the words that hold addresses: where these are
//! moved, the bytes are those of the same lines further on (specs/Moved.antt).
#![tactic(auto)]

mod assembly;
mod excluding;
mod moved;
mod places;
mod plan;
mod refusal;

pub use assembly::{Assembled, assemble, assemble_with_places, line_count};
pub use excluding::{
    assembled_is_assembly, assembled_is_one, assembly_excludes_refusal, assembly_is_one,
    lines_exclude_refusal, refusal_is_one,
};
pub use refusal::ForgeRefusal;
