//! The registers: what they give when they are read, and what a write leaves of them.

ghost use Rattle.std.specs.Prelude.{◌≡◌, ◌<◌, if◌then◌else◌};
ghost use Rattle.dp8390.specs.Registers.{value_of, after_reading, with_low, with_high, after_writing, page_of, moves_data, transmits, after_command, after_reset, new_registers, line_is_up, raised, with_miss};

use crate::bits::{
    CNT, LOOPBACK, MASKABLE, RD, RDC, REMOTE_READ, REMOTE_WRITE, RST, STA, STP, TXP, has,
};
use crate::register_map::Register;

/// The registers of a card, under the names that the data sheet gives in full.
#[derive(Clone, Copy)]
pub struct Registers {
    /// CR.
    pub command: u8,
    /// PSTART: the first page of the receive ring.
    pub page_start: u8,
    /// PSTOP: the page behind the receive ring.
    pub page_stop: u8,
    /// BNRY: the first page that is not read yet.
    pub boundary: u8,
    /// CURR: the page where the next frame is stored.
    pub current: u8,
    /// TPSR: the page where a frame to be sent begins.
    pub transmit_page: u8,
    /// TBCR: its length.
    pub transmit_count: u16,
    /// TSR.
    pub transmit_status: u8,
    /// TCR.
    pub transmit_configuration: u8,
    /// RCR.
    pub receive_configuration: u8,
    /// RSR.
    pub receive_status: u8,
    /// ISR.
    pub interrupt_status: u8,
    /// IMR.
    pub interrupt_mask: u8,
    /// RSAR and CRDA: where the next byte of a remote DMA stands.
    pub remote_address: u16,
    /// RBCR: how many bytes are still to be moved.
    pub remote_count: u16,
    /// CNTR2: how many frames found no room or were only monitored.
    pub missed_packets: u8,
    /// PAR: the station's address.
    pub physical: [u8; 6],
    /// MAR: which hashes of multicast addresses are taken.
    pub multicast: [u8; 8],
}

/// A word with another low byte.
fn with_low(word: u16, byte: u8) -> u16
    ensures { result ≡ with_low word byte }
{
    word / 256 * 256 + u16::from(byte)
}

/// A word with another high byte.
fn with_high(word: u16, byte: u8) -> u16
    ensures { result ≡ with_high word byte }
{
    u16::from(byte) * 256 + word % 256
}

/// Whether a command is a remote DMA that moves data.
pub fn moves_data(command: u8) -> bool
    ensures { result ≡ moves_data command }
{
    command & RD == REMOTE_READ || command & RD == REMOTE_WRITE
}

/// Whether a command starts a transmission.
pub fn transmits(command: u8) -> bool
    ensures { result ≡ transmits command }
{
    has(command, STA) && has(command, TXP)
}

impl Registers {
    /// The registers of a new card.
    pub fn new() -> Registers
        ensures { result ≡ new_registers }
    {
        Registers {
            command: 0x21,
            page_start: 0,
            page_stop: 0,
            boundary: 0,
            current: 0,
            transmit_page: 0,
            transmit_count: 0,
            transmit_status: 0,
            transmit_configuration: 0,
            receive_configuration: 0,
            receive_status: 0,
            interrupt_status: RST,
            interrupt_mask: 0,
            remote_address: 0,
            remote_count: 0,
            missed_packets: 0,
            physical: [0; 6],
            multicast: [0; 8],
        }
    }

    /// Resets the card: it stops, with all interrupts masked.
    pub fn reset(&mut self)
        ensures { self.new ≡ after_reset self.old }
    {
        self.command = 0x21;
        self.interrupt_status = RST;
        self.interrupt_mask = 0;
        self.transmit_configuration &= !LOOPBACK;
    }

    /// The page that the command register selects.
    pub fn page(&self) -> u8
        ensures { result ≡ page_of self.now.command }
    {
        self.command / 64
    }

    /// Reads a register. A counter is 0 afterwards.
    pub fn read(&mut self, register: Register) -> u8
        ensures value { result ≡ value_of self.old register }
        ensures after { self.new ≡ after_reading self.old register }
    {
        match register {
            Register::Command => self.command,
            Register::Boundary => self.boundary,
            Register::TransmitStatus => self.transmit_status,
            Register::InterruptStatus => self.interrupt_status,
            Register::RemoteAddressLow => (self.remote_address % 256) as u8,
            Register::RemoteAddressHigh => (self.remote_address / 256) as u8,
            Register::ReceiveStatus => self.receive_status,
            Register::MissedPackets => std::mem::take(&mut self.missed_packets),
            Register::Current => self.current,
            Register::Physical(k) => self.physical.get(k).copied().unwrap_or(0),
            Register::Multicast(k) => self.multicast.get(k).copied().unwrap_or(0),
            _ => 0,
        }
    }

    /// Writes a register other than the command register.
    #[tactic(auto, using(std::proofs::lemmas::List::set_past))]
    pub fn write(&mut self, register: Register, value: u8)
        ensures { self.new ≡ after_writing self.old register value }
    {
        match register {
            Register::PageStart => self.page_start = value,
            Register::PageStop => self.page_stop = value,
            Register::Boundary => self.boundary = value,
            Register::TransmitPage => self.transmit_page = value,
            Register::TransmitCountLow => {
                self.transmit_count = with_low(self.transmit_count, value);
            }
            Register::TransmitCountHigh => {
                self.transmit_count = with_high(self.transmit_count, value);
            }
            Register::InterruptStatus => self.interrupt_status &= !(value & MASKABLE),
            Register::RemoteAddressLow => {
                self.remote_address = with_low(self.remote_address, value);
            }
            Register::RemoteAddressHigh => {
                self.remote_address = with_high(self.remote_address, value);
            }
            Register::RemoteCountLow => self.remote_count = with_low(self.remote_count, value),
            Register::RemoteCountHigh => self.remote_count = with_high(self.remote_count, value),
            Register::ReceiveConfiguration => self.receive_configuration = value,
            Register::TransmitConfiguration => self.transmit_configuration = value,
            Register::InterruptMask => self.interrupt_mask = value,
            Register::Current => self.current = value,
            Register::Physical(k) => {
                if k < self.physical.len() {
                    self.physical[k] = value;
                }
            }
            Register::Multicast(k) => {
                if k < self.multicast.len() {
                    self.multicast[k] = value;
                }
            }
            _ => {}
        }
    }

    /// Takes a command, but for a transmission that it starts.
    pub fn command(&mut self, command: u8)
        ensures { self.new ≡ after_command self.old command }
    {
        self.command = command;
        if has(command, STP) {
            self.interrupt_status |= RST;
        } else if has(command, STA) {
            self.interrupt_status &= !RST;
        }
        if moves_data(command) && self.remote_count == 0 {
            self.interrupt_status |= RDC;
        }
    }

    /// Whether the interrupt line is up.
    pub fn line_is_up(&self) -> bool
        ensures { result ≡ line_is_up self.now }
    {
        has(self.interrupt_status & self.interrupt_mask, MASKABLE)
    }

    /// Sets bits of the interrupt status.
    pub fn raise(&mut self, bits: u8)
        ensures { self.new ≡ raised self.old bits }
    {
        self.interrupt_status |= bits;
    }

    /// Counts a frame that was missed.
    pub fn count_miss(&mut self)
        ensures { self.new ≡ with_miss self.old }
    {
        if self.missed_packets < 192 {
            self.missed_packets += 1;
            if self.missed_packets == 128 {
                self.raise(CNT);
            }
        }
    }
}
