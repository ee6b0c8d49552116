//! The lines of a script that make its adapters.

use nd_base::Bytes;

/// An adapter.
#[derive(Drop)]
pub struct AdapterLine {
    /// The hardware id that is looked up in the INF file: one word, each byte the character of that
    /// number.
    pub id: Bytes,
    /// The first port, a multiple of 0x20 from 0x200 to 0x3e0.
    pub port: u16,
    /// The interrupt line, 3 to 15.
    pub irq: u8,
    /// The station address; its first byte is even.
    pub mac: [u8; 6],
}

/// A text parameter of an adapter. Of these words each byte is the character of that number.
#[derive(Drop)]
pub struct ParamLine {
    /// Its name, one word.
    pub name: Bytes,
    /// Its value, one word.
    pub text: Bytes,
}
