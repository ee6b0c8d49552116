//! Tests of the crate `image_forge`: images of small sources, shown and run by the commands.
#![tactic(auto)]

pub mod images;
#[cfg(test)]
mod tests;
