//! Tests of adapter_timers.
#![tactic(auto)]

#[cfg(test)]
mod tests;
