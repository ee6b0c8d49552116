//! Frames that arrive: they are stored in the receive ring.

ghost use Rattle.std.specs.Prelude.{◌≡◌, ◌<◌, ◌*◌, ◌∷◌, [], ◌++◌, length, true, replicate};
ghost use Rattle.dp8390.specs.AddressFilter.{is_group};
ghost use Rattle.dp8390.specs.Ring.{is_started, in_ring, has_ring, free_pages, pages_of, page_behind, destination_of, status_of, put_bytes, after_store, has_room, after_taking, after_arrival, padded};

use crate::address_filter::is_group;
use crate::bits::{LOOPBACK, MON, OVW, PRX, STA, STP, has};
use crate::board::Board;
use crate::registers::Registers;

/// The length that shorter frames are padded to, and the zeros for that and for the check sequence.
const LEAST_LENGTH: usize = 60;

const ZEROS: [u8; LEAST_LENGTH + 4] = [0; 64];

/// The first six bytes of a frame, or zeros where it is shorter.
fn destination(frame: &[u8]) -> [u8; 6]
    ensures { result ≡ destination_of frame.now }
{
    let mut address = [0; 6];
    let count = frame.len().min(6);
    address[..count].copy_from_slice(&frame[..count]);
    address
}

impl Registers {
    /// Whether the receiver is started, and not in loopback.
    fn is_started(&self) -> bool
        ensures { result ≡ is_started self.now }
    {
        has(self.command, STA)
            && !has(self.command, STP)
            && !has(self.transmit_configuration, LOOPBACK)
    }

    /// Whether a page lies in the ring.
    fn in_ring(&self, page: u8) -> bool
        ensures { result ≡ in_ring self.now page }
    {
        self.page_start <= page && page < self.page_stop
    }

    /// Whether there is a ring in memory, and CURR and BNRY lie in it.
    fn has_ring(&self) -> bool
        ensures { result ≡ has_ring self.now }
    {
        0x40 <= self.page_start
            && self.page_start < self.page_stop
            && self.page_stop <= 0x80
            && self.in_ring(self.current)
            && self.in_ring(self.boundary)
    }

    /// How many pages are free.
    fn free_pages(&self) -> u8
        requires { has_ring self.now ≡ true }
        ensures { result ≡ free_pages self.now }
    {
        let ring = self.page_stop - self.page_start;
        if self.current < self.boundary {
            self.boundary - self.current
        } else {
            ring - (self.current - self.boundary)
        }
    }

    /// The page so many pages behind CURR.
    fn page_behind(&self, pages: u8) -> u8
        requires ring { has_ring self.now ≡ true }
        requires pages { pages < free_pages self.now }
        ensures { result ≡ page_behind self.now pages }
    {
        let page = self.current + pages;
        if page < self.page_stop {
            page
        } else {
            page - (self.page_stop - self.page_start)
        }
    }
}

impl Board {
    /// Puts bytes one after another from an address on, and answers the address behind them.
    fn put_bytes(&mut self, start: u16, bytes: &[u8]) -> u16
        ensures memory { self.new ≡ record self.old { memory = (put_bytes self.old.registers (self.old.memory, start) bytes.now).0 } }
        ensures next { result ≡ (put_bytes self.old.registers (self.old.memory, start) bytes.now).1 }
    {
        let mut next = start;
        for &byte in bytes {
            self.put_byte(next, byte);
            next = self.registers.next_address(next);
        }
        next
    }

    /// Puts a header, a frame with the zeros that pad it, and four zeros from CURR on.
    fn put_frame(&mut self, header: &[u8; 4], frame: &[u8])
        ensures { self.new ≡ record self.old {
          memory = (put_bytes self.old.registers (self.old.memory, 256 * self.old.registers.current) (header.now ++ padded frame.now ++ replicate 4 0)).0;
        } }
    {
        let start = 256 * u16::from(self.registers.current);
        let behind_header = self.put_bytes(start, header);
        let behind_frame = self.put_bytes(behind_header, frame);
        let zeros = frame.len().max(LEAST_LENGTH) + 4 - frame.len();
        self.put_bytes(behind_frame, &ZEROS[..zeros]);
    }

    /// Stores a frame at CURR.
    #[tactic(auto, using(crate::proofs::PutBytes::length_padded))]
    fn store(&mut self, status: u8, frame: &[u8], pages: u8)
        requires ring { has_ring self.old.registers ≡ true }
        requires pages { pages ≡ pages_of (length (padded frame.now)) }
        requires room { pages < free_pages self.old.registers }
        ensures { self.new ≡ after_store self.old status (padded frame.now) }
    {
        let next_page = self.registers.page_behind(pages);
        let count = frame.len().max(LEAST_LENGTH) + 4;
        let header = [status, next_page, (count % 256) as u8, (count / 256) as u8];
        self.put_frame(&header, frame);
        self.registers.current = next_page;
        self.registers.receive_status = status;
        self.registers.raise(PRX);
    }

    /// Takes a frame that the address filter accepts.
    #[tactic(auto, using(crate::proofs::PutBytes::length_padded))]
    fn take_frame(&mut self, status: u8, frame: &[u8])
        requires ring { has_ring self.old.registers ≡ true }
        requires status { status ≡ status_of (destination_of frame.now) }
        ensures { self.new ≡ after_taking self.old (padded frame.now) }
    {
        if has(self.registers.receive_configuration, MON) {
            self.registers.count_miss();
            return;
        }
        let pages = (frame.len().max(LEAST_LENGTH) + 8).div_ceil(256);
        if pages < usize::from(self.registers.free_pages()) {
            self.store(status, frame, pages as u8);
        } else {
            self.registers.raise(OVW);
            self.registers.count_miss();
        }
    }

    /// A frame arrives.
    pub fn arrive(&mut self, frame: &[u8])
        ensures { self.new ≡ after_arrival self.old frame.now }
    {
        if !self.registers.is_started() || !self.registers.has_ring() {
            return;
        }
        let address = destination(frame);
        if self.registers.accepts(&address) {
            let status = if is_group(&address) { 0x21 } else { 0x01 };
            self.take_frame(status, frame);
        }
    }
}
