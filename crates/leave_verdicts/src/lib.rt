//! What is drawn from a leave: the rule that it breaks, or the entries that stand behind it. (Windows
//! DDK, what each Miniport function answers; docs/LEGAL-RUN.md.)
#![tactic(auto)]

mod judgement;
mod leaves;
mod packets;
mod requests;
mod resets;
mod starts;
mod statuses;

pub use judgement::{Judgement, broken};
pub use leaves::judge;
