//! Tests of nd_base.
#![tactic(auto)]

#[cfg(test)]
mod tests;
