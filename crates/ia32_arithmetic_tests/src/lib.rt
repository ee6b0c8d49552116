//! Tests of the crate `ia32_arithmetic`. What numbers and flags are expected to be is what a
//! processor answered to the same instructions (tests/outside/arithmetic_rows.c prints them), but
//! for a flag that Intel leaves undefined, which keeps its value.
#![tactic(auto)]

#[cfg(test)]
mod tests;
