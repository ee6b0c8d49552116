//! Tests of guest_map.
#![tactic(auto)]

#[cfg(test)]
mod tests;
