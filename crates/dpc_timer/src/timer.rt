//! Timers, and their turns.

/// An armed timer: its moment, and its period or 0.
#[derive(Clone, Copy)]
pub struct Timer {
    pub moment: u64,
    pub every: u64,
}

/// The moment of a timer, with the timer's address.
#[derive(Clone, Copy)]
pub struct Turn {
    pub moment: u64,
    pub address: u32,
}
