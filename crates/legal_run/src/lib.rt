//! The legal run: which logs the library may write.
//!
//! It is a definition on plain values (specs/): what a run is given and its state (State.antt), what may
//! come by itself (Owed.antt), what entering a handler carries (Enters.antt), what a call makes and what
//! is drawn from a leave (Calls.antt), the reply of a call (Replies.antt), what each entry does
//! (After.antt), what must stand next (Must.antt), and what each entry needs (Run.antt).
#![tactic(auto)]

mod kinds;
mod laws;

pub use kinds::{cause_laws, code_laws, duties_are_served, entry_laws, verdict_laws};
pub use laws::{
    calls_keep, charges_are_sums, clock_laws, nothing_stands_between, replies_are_taken, run_laws,
    runs_are_legal,
};
