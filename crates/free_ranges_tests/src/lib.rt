//! Tests of free_ranges.
#![tactic(auto)]

#[cfg(test)]
mod tests;
