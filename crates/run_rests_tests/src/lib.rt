//! Tests of run_rests: what comes next in a run of two adapters, of which the first has a driver.
#![tactic(auto)]

#[cfg(test)]
mod runs;
#[cfg(test)]
mod tests;
