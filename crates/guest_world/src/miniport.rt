//! What calls of a miniport's image have given of the miniport.

use nd_base::AdapterNo;

/// How many words NDIS_MINIPORT_CHARACTERISTICS of NDIS 5.1 has.
pub const CHARACTERISTICS: usize = 27;

/// The miniport that NdisMRegisterMiniport registered.
#[derive(Clone, Copy, Debug, PartialEq, Eq)]
pub struct Miniport {
    /// The minor version of its NDIS 5.
    pub minor: u8,
    /// The words of its characteristics, as its version has them; further ones are 0.
    pub words: [u32; CHARACTERISTICS],
}

/// What NdisMInitializeTimer gave of a timer.
#[derive(Clone, Copy, Debug, PartialEq, Eq)]
pub struct TimerFunction {
    pub adapter: AdapterNo,
    pub function: u32,
    pub context: u32,
}
