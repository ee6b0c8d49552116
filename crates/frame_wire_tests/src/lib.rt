//! Tests of `frame_wire`: what no clause of it says, and that its calls succeed, small and large.
#![tactic(auto)]

#[cfg(test)]
mod reading;
#[cfg(test)]
mod whole;
#[cfg(test)]
mod words;
