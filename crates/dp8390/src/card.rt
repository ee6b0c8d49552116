//! The card: its answers to accesses of its ports, and to frames.

ghost use Rattle.std.specs.Prelude.{◌≡◌, ◌≢◌, ◌<◌, ◌≤◌, length, IfOk, OnOk, OnErr, None, IsTrue};
ghost use Rattle.dp8390.specs.Registers.{line_is_up};
ghost use Rattle.dp8390.specs.Card.{after_command_write, new_card, bytes_read, after_read, after_write, after_take};
ghost use Rattle.dp8390.specs.Ring.{after_arrival};

use crate::board::{Board, MEMORY_LENGTH};
use crate::register_map::{read_at, write_at};
use crate::registers::{Registers, transmits};
use nd_base::{Bytes, OutOfMemory};
use std::alloc::Global;
use std::marker::Model;

/// An NE2000 card, seen as its registers and memory.
#[derive(Drop)]
pub struct Card {
    board: Box<Board>,
}

impl Model for Card {
    ghost use Rattle.dp8390.specs.declared.board.Board.{Board};

    ghost Value = { Board };

    ghost view = { λ c. c.board.value };
}

impl Board {
    /// Reads a port.
    fn read(&mut self, port: u8, out: &mut [u8])
        requires port { port < 0x20 }
        requires some { 0 < length out.old }
        ensures value { out.new ≡ bytes_read self.old port (length out.old) }
        ensures after { self.new ≡ after_read self.old port (length out.old) }
    {
        if port >= 0x10 && port < 0x18 {
            self.read_data(out);
            return;
        }
        out.fill(0);
        if port < 0x10 {
            out[0] = self.registers.read(read_at(self.registers.page(), port));
        } else {
            self.registers.reset();
        }
    }

    /// Takes a command, and sends a frame where it starts a transmission.
    fn command(&mut self, command: u8)
        ensures { self.new ≡ after_command_write self.old command }
    {
        self.registers.command(command);
        if transmits(command) {
            self.transmit();
        }
    }

    /// Writes a port.
    fn write(&mut self, port: u8, bytes: &[u8])
        requires port { port < 0x20 }
        requires some { 0 < length bytes.now }
        ensures { self.new ≡ after_write self.old port bytes.now }
    {
        if port == 0 {
            self.command(bytes[0]);
        } else if port < 0x10 {
            let register = write_at(self.registers.page(), port);
            self.registers.write(register, bytes[0]);
        } else if port < 0x18 {
            self.write_data(bytes);
        }
    }
}

impl Card {
    /// A card that was never started. Its PROM holds the station's address; its registers are as
    /// after a reset, and all else is 0.
    #[tactic(auto, unfolding(crate::specs::Card::blank_memory))]
    pub fn new(alloc: Global, station: [u8; 6]) -> Result<Card, OutOfMemory>
        ensures { IfOk result (λ card. card ≡ new_card station) }
    {
        let board = Box::new(
            alloc,
            Board {
                registers: Registers::new(),
                station,
                memory: [0; MEMORY_LENGTH],
                sent: None,
            },
        )?;
        Ok(Card { board })
    }

    /// Reads a port, of 0x00 to 0x1F, by an access of one or two bytes.
    pub fn read(&mut self, port: u8, out: &mut [u8])
        requires port { port < 0x20 }
        requires some { 0 < length out.old }
        requires most { length out.old ≤ 2 }
        ensures value { out.new ≡ bytes_read self.old port (length out.old) }
        ensures after { self.new ≡ after_read self.old port (length out.old) }
    {
        self.board.read(port, out);
    }

    /// Writes a port, of 0x00 to 0x1F, by an access of one or two bytes.
    pub fn write(&mut self, port: u8, bytes: &[u8])
        requires port { port < 0x20 }
        requires some { 0 < length bytes.now }
        requires most { length bytes.now ≤ 2 }
        requires taken { self.old.sent ≡ None }
        ensures { self.new ≡ after_write self.old port bytes.now }
    {
        self.board.write(port, bytes);
    }

    /// A frame arrives from the wire. It has its two addresses and its type in front, and no check
    /// sequence behind.
    pub fn arrive(&mut self, frame: &[u8])
        ensures { self.new ≡ after_arrival self.old frame.now }
    {
        self.board.arrive(frame);
    }

    /// Takes the frame that was sent, if one was sent since the last take.
    pub fn take_sent(&mut self, alloc: Global) -> Result<Option<Bytes>, OutOfMemory>
        ensures ok { IfOk result (λ frame. frame ≡ self.old.sent) }
        ensures after { OnOk result (self.new ≡ after_take self.old) }
        ensures err { OnErr result (self.new ≡ self.old) }
        ensures memory { OnErr result (self.old.sent ≢ None) }
    {
        let Some(frame) = &self.board.sent else {
            return Ok(None);
        };
        let bytes = Bytes::copy(alloc, frame.as_slice())?;
        self.board.sent = None;
        Ok(Some(bytes))
    }

    /// Whether the interrupt line is up.
    pub fn line(&self) -> bool
        ensures { result ≡ line_is_up self.now.registers }
    {
        self.board.registers.line_is_up()
    }
}
