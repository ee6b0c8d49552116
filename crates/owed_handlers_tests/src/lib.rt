//! Tests of owed_handlers: which handler comes first, in a run of two adapters without drivers.
#![tactic(auto)]

#[cfg(test)]
mod runs;
#[cfg(test)]
mod tests;
