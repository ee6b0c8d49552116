//! Tests of pe_image.
#![tactic(auto)]

#[cfg(test)]
mod tests;
