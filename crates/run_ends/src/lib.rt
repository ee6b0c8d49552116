//! The end of a run for want of memory: every adapter that is not finished is stopped, with its tail; and
//! where a run may be cut so. (docs/LEGAL-RUN.md)
#![tactic(auto)]

mod endings;
mod finished;
mod laws;

pub use endings::end_for_memory;
pub use finished::is_finished;
pub use laws::cut_laws;
