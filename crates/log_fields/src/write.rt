//! Writes to guest memory.

use nd_base::{Addr, Bytes};

/// Bytes that are written at an address.
#[derive(Drop)]
pub struct Write {
    /// Where they begin.
    pub at: Addr,
    /// What is written.
    pub bytes: Bytes,
}
