//! Tests of import_table.
#![tactic(auto)]

#[cfg(test)]
mod tests;
