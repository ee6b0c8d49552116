//! What holds in every state of a run: laws of the legal run, each the contract of a function that does
//! nothing.
#![tactic(auto)]

mod laws;

pub use laws::{
    adapters_are_given, calls_agree, calls_can_be_answered, contexts_are_ready,
    expirations_are_few, levels_agree, lists_keep_their_lengths, periods_are_short, runs_go_on,
    spent_are_due,
};
