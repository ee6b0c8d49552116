//! The handler of a context of a run returns, whole: its leave, and behind it what is drawn from it, or the
//! stops where it breaks a rule. (docs/LEGAL-RUN.md)
#![tactic(auto)]

mod aborts;
mod judged;
mod leaves;
mod verdicts;

pub use leaves::leave;
