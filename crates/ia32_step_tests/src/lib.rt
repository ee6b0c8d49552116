//! Tests of ia32_step.
#![tactic(auto)]

#[cfg(test)]
mod tests;
