//! What is called before each event of a driver.

use crate::numbers::BindingNo;

/// Called before each event of a driver, with the number of events that it made before.
pub trait Gate {
    fn pass(&self, b: BindingNo, turn: u64);
}

/// A gate that does nothing.
#[derive(Clone, Copy, Debug)]
pub struct OpenGate;

impl Gate for OpenGate {
    fn pass(&self, _b: BindingNo, _turn: u64) {}
}
