//! Tests of guest_calls: each import by the one call that answers all, in rows of calls whose answers
//! were written by hand from docs/IMPORTS.md.
#![tactic(auto)]

#[cfg(test)]
mod asking;
#[cfg(test)]
mod completions;
#[cfg(test)]
mod configuration;
#[cfg(test)]
mod every;
#[cfg(test)]
mod locks;
#[cfg(test)]
mod memory;
#[cfg(test)]
mod packets;
#[cfg(test)]
mod ports;
#[cfg(test)]
mod registration;
#[cfg(test)]
mod replies;
#[cfg(test)]
mod resources;
#[cfg(test)]
mod steps;
#[cfg(test)]
mod timers;
#[cfg(test)]
mod worlds;
