//! The end of handlers: a leave, with what it takes and sets by the handler that leaves; the end of an
//! adapter's contexts where it is stopped. (Windows DDK, the reference page of each Miniport function;
//! docs/LEGAL-RUN.md.)
#![tactic(auto)]

mod answers;
mod leaves;
mod rows;
mod stops;

pub use leaves::leave;
pub use stops::stop;
