//! What the owner machine allows: the rule that an entry breaks, and what must stand directly next,
//! over rows that are kept with their counts.
//!
//! The definitions are owner_machine's; `Ledger` is a state of it (specs/State.antt), and each function
//! here answers what a definition says of that state. What entries make of it is in owner_book.
#![tactic(auto)]

mod adapter_rules;
mod context_rules;
mod duties;
mod filters;
mod groups;
mod handler_rules;
mod ledger;
mod loan_rules;
mod logic;
mod packet_rules;
mod phase_rules;
mod question_rules;
mod request_rules;
mod table;

pub use context_rules::{runs, wants_transfer};
pub use duties::Duty;
pub use groups::Group;
pub use ledger::Ledger;
pub use loan_rules::marks;
pub use packet_rules::{has_verdict, is_ending};
pub use question_rules::{CURRENT_PACKET_FILTER, MULTICAST_LIST, little_endian};
