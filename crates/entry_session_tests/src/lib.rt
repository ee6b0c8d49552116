//! Tests of entry_session: small drivers, run to their ends.
#![tactic(auto)]

pub mod runs;
#[cfg(test)]
mod tests;
