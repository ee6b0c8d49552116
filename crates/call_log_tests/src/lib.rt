//! Tests of call_log.
#![tactic(auto)]

#[cfg(test)]
mod logs;
#[cfg(test)]
mod rows;
