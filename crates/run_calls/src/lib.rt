//! The calls of a context of a run, each whole: from a settled point to the next one, with all that must
//! stand between. (docs/LEGAL-RUN.md)
#![tactic(auto)]

mod asking;
mod calls;
mod makes;
mod moves;
mod replies;
mod waking;

pub use calls::call;
pub use waking::wake;
