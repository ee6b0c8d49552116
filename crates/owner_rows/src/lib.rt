//! The packets, loans and requests of a run by number, with what is kept beside them: the numbers of
//! those that are not done, and how many belong to each adapter or driver.
//!
//! So no call walks all rows of a run: a look-up goes over what is not done.
#![tactic(auto)]

mod loans;
mod numbers;
mod packets;
mod places;
mod requests;
mod tally;

pub use loans::{Loans, WhichLoans, has_holder, is_held_by};
pub use packets::{Packets, WhichPackets};
pub use places::{
    in_slot, is_aborted, is_asked, is_away, is_due, is_handed, is_lent, is_miniport, is_open,
    is_out, is_queue, is_refused, is_turned_away,
};
pub use requests::{Requests, WhichRequests};

/// The most rows of a kind: more are want of memory.
pub const MOST_ROWS: u64 = 1 << 48;
