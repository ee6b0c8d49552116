//! The owner machine: who owns which packet, loan and request, in which phase an adapter is, and
//! which handlers may be open side by side.
//!
//! It is a definition on plain values (specs/): the state (State.antt), what each kind of entry needs
//! and makes (Machine.antt, by subject in Packets, Loans, Requests, Adapters, Contexts and Handlers),
//! and what must stand directly next (Must.antt). Here are the rows of that state, and its laws over
//! every legal log (Legal.antt, Laws.antt).
#![tactic(auto)]

mod laws;
mod rows;
mod waiting;

pub use laws::{handler_laws, loan_laws, packet_laws, request_laws, stop_laws};
pub use rows::{
    Adapter, Binding, Context, Driver, Loan, LoanPlace, Next, OpenCall, Packet, Place, Request,
    RequestPlace,
};
pub use waiting::{CancelIds, Event, Events};
