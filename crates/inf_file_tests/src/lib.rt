//! Tests of inf_file.
#![tactic(auto)]

#[cfg(test)]
mod files;
#[cfg(test)]
mod parameters;
#[cfg(test)]
mod reading;
