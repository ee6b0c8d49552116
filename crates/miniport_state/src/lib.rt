//! What the library keeps of a miniport's side of a run, beside the book of owners and the world of
//! calls: the contexts, how far each adapter has come, and what was charged. (Windows DDK, Miniport
//! functions; contexts, charges and waits: docs/LEGAL-RUN.md.)
#![tactic(auto)]

mod adapters;
mod contexts;
mod handlers;

pub use adapters::{Adapters, CONTEXTS, Entrance, Progress};
pub use contexts::{Calling, Context, Stage, Wait};
pub use handlers::{handler_address, has_handler};
