//! Tests of `driver_script`: what no clause of it says, and that its calls succeed, small and large.
#![tactic(auto)]

#[cfg(test)]
mod lines;
#[cfg(test)]
mod refusals;
#[cfg(test)]
mod whole;
