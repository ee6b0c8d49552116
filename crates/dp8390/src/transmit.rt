//! Transmission of a frame that stands in the card's memory.

ghost use Rattle.std.specs.Prelude.{◌≡◌, IsTrue};
ghost use Rattle.dp8390.specs.Transmit.{is_sendable, after_transmission, after_transmit};

use crate::bits::{LOOPBACK, PTX, TXE, TXP, has};
use crate::board::Board;
use crate::registers::Registers;
use crate::sent_frame::SentFrame;

impl Registers {
    /// Whether the frame has a length that can be sent, and lies in memory.
    fn is_sendable(&self) -> bool
        ensures { result ≡ is_sendable self.now }
    {
        let first = 256 * u32::from(self.transmit_page);
        let count = self.transmit_count;
        count >= 14 && count <= 1514 && first >= 0x4000 && first + u32::from(count) <= 0x8000
    }

    /// Ends a transmission.
    fn end_transmission(&mut self, status: u8, interrupt: u8)
        ensures { self.new ≡ after_transmission self.old status interrupt }
    {
        self.command &= !TXP;
        self.transmit_status = status;
        self.raise(interrupt);
    }
}

impl Board {
    /// Sends the frame that the registers name.
    pub fn transmit(&mut self)
        ensures { self.new ≡ after_transmit self.old }
    {
        if !self.registers.is_sendable() {
            self.registers.end_transmission(0, TXE);
            return;
        }
        if !has(self.registers.transmit_configuration, LOOPBACK) {
            let first = 256 * usize::from(self.registers.transmit_page) - 0x4000;
            let end = first + usize::from(self.registers.transmit_count);
            self.sent = Some(SentFrame::copy(&self.memory[first..end]));
        }
        self.registers.end_transmission(1, PTX);
    }
}
