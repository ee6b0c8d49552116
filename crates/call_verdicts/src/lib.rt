//! What a call does to packets, requests and resets: the rule that it breaks, or the entries that it
//! makes. (Windows DDK: NdisMSendComplete, NdisMResetComplete, NdisMQueryInformationComplete,
//! NdisMSetInformationComplete; docs/LEGAL-RUN.md.)
#![tactic(auto)]

mod arrays;
mod calls;
mod deeds;
mod filters;
mod frames;
mod holders;
mod lendings;
mod packets;
mod ports;
mod requests;
mod resets;
mod rules;
mod words;

pub use calls::made;
pub use deeds::Deed;
