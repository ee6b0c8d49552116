//! Tests of the commands and of the real devices.
#![tactic(auto)]

#[cfg(test)]
mod commands;
#[cfg(test)]
mod drivers;
#[cfg(test)]
mod forging;
#[cfg(test)]
mod real_devices;
#[cfg(test)]
mod runs;
#[cfg(test)]
mod slow_system;
#[cfg(test)]
mod test_devices;
