//! Tests of `printed_lines`: each kind of line as docs/PRINTED.md has it, and that its calls
//! succeed, small and large.
#![tactic(auto)]

#[cfg(test)]
mod images;
#[cfg(test)]
mod parameters;
#[cfg(test)]
mod refusals;
