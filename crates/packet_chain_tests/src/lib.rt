//! Tests of packet_chain.
#![tactic(auto)]

#[cfg(test)]
mod tests;
