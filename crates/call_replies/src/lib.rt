//! What the calls of every group have in common: replies, the writes of a reply, what may be read and
//! written of guest memory, and handles.
#![tactic(auto)]

mod laws;
mod places;
mod replies;

pub use laws::undo_laws;
pub use places::{can_read, can_write, is_adapter_handle, word_at};
pub use replies::{
    ARGUMENTS_RULE, LIVE_RULE, done, filled, moved, put_bytes, put_some, put_word, returns, writes,
};
