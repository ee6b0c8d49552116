//! The adapters of a run, and what calls of their miniport have given of them.

use crate::params::Params;
use dp8390::Card;
use nd_base::Addr;

/// What the machine has for an adapter.
#[derive(Clone, Copy, Debug, PartialEq, Eq)]
pub struct Hardware {
    /// Its first port.
    pub port: u16,
    /// Its interrupt line.
    pub irq: u8,
    /// Its station address.
    pub station: [u8; 6],
}

/// What NdisMSetAttributesEx gave of an adapter.
#[derive(Clone, Copy, Debug, PartialEq, Eq)]
pub struct Attributes {
    /// The miniport's context of the adapter.
    pub context: u32,
    /// The period of its hang checks, in microseconds.
    pub hang_period: u64,
    /// Whether its handlers may overlap.
    pub deserialized: bool,
}

/// What NdisMRegisterInterrupt gave of an adapter.
#[derive(Clone, Copy, Debug, PartialEq, Eq)]
pub struct Interrupt {
    /// Where the interrupt object stands.
    pub object: Addr,
    /// Whether the ISR is entered at an interrupt.
    pub enters_isr: bool,
}

/// An adapter: its hardware, its parameters, its card, and what calls have given.
#[derive(Drop)]
pub struct Adapter {
    pub hardware: Hardware,
    pub params: Params,
    pub card: Card,
    pub attributes: Option<Attributes>,
    pub interrupt: Option<Interrupt>,
    /// Whether NdisOpenConfiguration gave its configuration handle.
    pub opened: bool,
}
