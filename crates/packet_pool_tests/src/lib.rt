//! Tests of packet_pool.
#![tactic(auto)]

#[cfg(test)]
mod tests;
