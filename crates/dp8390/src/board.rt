//! The board: the registers, and the memory that the controller addresses.

ghost use Rattle.std.specs.Prelude.{◌≡◌, ◌<◌};
ghost use Rattle.dp8390.specs.Memory.{prom_byte, byte_at, put_byte};

use crate::registers::Registers;
use crate::sent_frame::SentFrame;

/// How many bytes of memory there are.
pub const MEMORY_LENGTH: usize = 0x4000;

/// All that a card keeps.
#[derive(Drop)]
pub struct Board {
    pub registers: Registers,
    /// The address that the PROM holds.
    pub station: [u8; 6],
    /// The bytes from address 0x4000 on.
    pub memory: [u8; MEMORY_LENGTH],
    /// The frame that was sent and is not taken yet.
    pub sent: Option<SentFrame>,
}

impl Board {
    /// A byte of the PROM.
    fn prom_byte(&self, place: u16) -> u8
        ensures { result ≡ prom_byte self.now.station place }
    {
        match place {
            0..=5 => self.station[usize::from(place)],
            6..=13 => 0,
            _ => 0x57,
        }
    }

    /// What is read at an address.
    pub fn byte_at(&self, address: u16) -> u8
        ensures { result ≡ byte_at self.now address }
    {
        match address {
            0..32 => self.prom_byte(address / 2),
            0x4000..0x8000 => self.memory[usize::from(address - 0x4000)],
            _ => 0xFF,
        }
    }

    /// Writes a byte, if there is memory at the address.
    pub fn put_byte(&mut self, address: u16, byte: u8)
        ensures { self.new ≡ record self.old { memory = put_byte self.old.memory address byte } }
    {
        if address >= 0x4000 && address < 0x8000 {
            self.memory[usize::from(address - 0x4000)] = byte;
        }
    }
}
