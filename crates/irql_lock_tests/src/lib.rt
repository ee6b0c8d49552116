//! Tests of irql_lock.
#![tactic(auto)]

#[cfg(test)]
mod tests;
