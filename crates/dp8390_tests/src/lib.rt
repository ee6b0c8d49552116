//! Tests of dp8390.
#![tactic(auto)]

#[cfg(test)]
mod tests;
