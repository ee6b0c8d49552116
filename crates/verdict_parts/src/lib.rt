//! What the judgement of a call and of a leave have in common: the send slot in which a packet lies
//! and its status there, and what a request is answered with. (Windows DDK: NDIS_PACKET_OOB_DATA,
//! MiniportQueryInformation, MiniportSetInformation; docs/LEGAL-RUN.md.)
#![tactic(auto)]

mod reading;
mod requests;
mod slots;
mod standings;

pub use reading::{bytes_at, word_at};
pub use requests::{answer, fits, handed_request, request_at};
pub use slots::{is_at_miniport, slot_address, slot_status, status_at};
pub use standings::{is_resetting, is_serialized};
