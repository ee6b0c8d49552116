//! What a protocol driver does in a run, whole: each command takes the run from a point where nothing must
//! stand to the next such point, with the entries that must stand behind its own. (docs/LEGAL-RUN.md)
#![tactic(auto)]

mod bindings;
mod events;
mod loans;
mod moves;
mod needs;
mod packets;
mod requests;

pub use bindings::{bind, end, unbind, wait};
pub use events::signal;
pub use loans::give_back;
pub use needs::{
    has_no_slot, is_bound, is_driver, may_bind, may_cancel, may_give_back, may_send, may_unbind,
    still_holds, takes_event,
};
pub use packets::{cancel, send};
pub use requests::ask;
