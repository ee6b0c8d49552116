//! Tests of `binding`: what no clause of it says, and that its calls succeed.
#![tactic(auto)]

#[cfg(test)]
mod packets;
#[cfg(test)]
mod scripts;
