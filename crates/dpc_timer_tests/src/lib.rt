//! Tests of dpc_timer.
#![tactic(auto)]

#[cfg(test)]
mod tests;
