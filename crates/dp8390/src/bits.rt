//! Bits of registers, by their names in the DP8390 data sheet ("Register Descriptions").

ghost use Rattle.std.specs.Prelude.{◌≡◌};
ghost use Rattle.dp8390.specs.Bits.{has};

/// CR: stop.
pub const STP: u8 = 0x01;
/// CR: start.
pub const STA: u8 = 0x02;
/// CR: transmit packet.
pub const TXP: u8 = 0x04;
/// CR: the remote DMA command.
pub const RD: u8 = 0x38;
/// A value of RD: remote read.
pub const REMOTE_READ: u8 = 0x08;
/// A value of RD: remote write.
pub const REMOTE_WRITE: u8 = 0x10;

/// ISR: packet received.
pub const PRX: u8 = 0x01;
/// ISR: packet transmitted.
pub const PTX: u8 = 0x02;
/// ISR: transmit error.
pub const TXE: u8 = 0x08;
/// ISR: overwrite warning.
pub const OVW: u8 = 0x10;
/// ISR: counter overflow.
pub const CNT: u8 = 0x20;
/// ISR: remote DMA complete.
pub const RDC: u8 = 0x40;
/// ISR: reset status.
pub const RST: u8 = 0x80;
/// ISR and IMR: all but the reset status, which raises no interrupt.
pub const MASKABLE: u8 = 0x7F;

/// RCR: accept broadcast.
pub const AB: u8 = 0x04;
/// RCR: accept multicast.
pub const AM: u8 = 0x08;
/// RCR: promiscuous physical.
pub const PRO: u8 = 0x10;
/// RCR: monitor mode.
pub const MON: u8 = 0x20;

/// TCR: loopback.
pub const LOOPBACK: u8 = 0x06;

/// Whether a register has a bit of a mask.
pub fn has(register: u8, mask: u8) -> bool
    ensures { result ≡ has register mask }
{
    register & mask != 0
}
