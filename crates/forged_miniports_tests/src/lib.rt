//! Tests of the crate `forged_miniports`: the files of each kind.
#![tactic(auto)]

#[cfg(test)]
mod miniports;
