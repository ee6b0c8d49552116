//! Remote DMA: the data port moves bytes from or to the card's memory.

ghost use Rattle.std.specs.Prelude.{◌≡◌, ◌<◌, IsTrue, length};
ghost use Rattle.dp8390.specs.RemoteDma.{next_address, is_moving, after_move, data_byte, after_data_read, after_data_write, data_bytes, after_data_reads, after_data_writes};

use crate::bits::RDC;
use crate::board::Board;
use crate::registers::{Registers, moves_data};

impl Registers {
    /// The address behind one: it goes on from the end of the receive ring at its start.
    pub fn next_address(&self, address: u16) -> u16
        ensures { result ≡ next_address self.now address }
    {
        let next = address.wrapping_add(1);
        if next == 256 * u16::from(self.page_stop) {
            256 * u16::from(self.page_start)
        } else {
            next
        }
    }

    /// Whether the data port moves bytes.
    fn is_moving(&self) -> bool
        ensures { result ≡ is_moving self.now }
    {
        self.remote_count > 0 && moves_data(self.command)
    }

    /// Goes on behind a byte that was moved.
    fn after_move(&mut self)
        requires { 0 < self.old.remote_count }
        ensures { self.new ≡ after_move self.old }
    {
        self.remote_address = self.next_address(self.remote_address);
        self.remote_count -= 1;
        if self.remote_count == 0 {
            self.raise(RDC);
        }
    }
}

impl Board {
    /// Moves a byte out, if there is one to be moved.
    fn read_data_byte(&mut self) -> u8
        ensures value { result ≡ data_byte self.old }
        ensures after { self.new ≡ after_data_read self.old }
    {
        if !self.registers.is_moving() {
            return 0xFF;
        }
        let byte = self.byte_at(self.registers.remote_address);
        self.registers.after_move();
        byte
    }

    /// Moves a byte in, if there is one to be moved.
    fn write_data_byte(&mut self, byte: u8)
        ensures { self.new ≡ after_data_write self.old byte }
    {
        if self.registers.is_moving() {
            self.put_byte(self.registers.remote_address, byte);
            self.registers.after_move();
        }
    }

    /// Reads the data port: one byte is moved for each byte of the access.
    pub fn read_data(&mut self, out: &mut [u8])
        ensures value { out.new ≡ data_bytes self.old (length out.old) }
        ensures after { self.new ≡ after_data_reads self.old (length out.old) }
    {
        for byte in out.iter_mut() {
            *byte = self.read_data_byte();
        }
    }

    /// Writes the data port: one byte is moved for each byte of the access.
    pub fn write_data(&mut self, bytes: &[u8])
        ensures { self.new ≡ after_data_writes self.old bytes.now }
    {
        for &byte in bytes {
            self.write_data_byte(byte);
        }
    }
}
