//! Tests of nd_mem.
#![tactic(auto)]

#[cfg(test)]
mod tests;
