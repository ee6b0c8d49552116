//! Tests of import_slots.
#![tactic(auto)]

#[cfg(test)]
mod tests;
