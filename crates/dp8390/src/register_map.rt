//! Which register stands at which port (DP8390 data sheet, "Register Address Assignments").

ghost use Rattle.std.specs.Prelude.{◌≡◌, ◌<◌};
ghost use Rattle.dp8390.specs.RegisterMap.{read_at, write_at};

/// A register, or a byte of one.
#[derive(Clone, Copy)]
pub enum Register {
    /// CR.
    Command,
    /// PSTART.
    PageStart,
    /// PSTOP.
    PageStop,
    /// BNRY.
    Boundary,
    /// TSR.
    TransmitStatus,
    /// TPSR.
    TransmitPage,
    /// NCR, which counts nothing here.
    Collisions,
    /// TBCR0.
    TransmitCountLow,
    /// TBCR1.
    TransmitCountHigh,
    /// ISR.
    InterruptStatus,
    /// RSAR0 where it is written, CRDA0 where it is read.
    RemoteAddressLow,
    /// RSAR1 where it is written, CRDA1 where it is read.
    RemoteAddressHigh,
    /// RBCR0.
    RemoteCountLow,
    /// RBCR1.
    RemoteCountHigh,
    /// RSR.
    ReceiveStatus,
    /// RCR.
    ReceiveConfiguration,
    /// TCR.
    TransmitConfiguration,
    /// DCR, which has no effect here.
    DataConfiguration,
    /// IMR.
    InterruptMask,
    /// CNTR0, which counts nothing here.
    AlignmentErrors,
    /// CNTR1, which counts nothing here.
    ChecksumErrors,
    /// CNTR2.
    MissedPackets,
    /// CURR.
    Current,
    /// PAR0 to PAR5.
    Physical(usize),
    /// MAR0 to MAR7.
    Multicast(usize),
    /// Nothing: it reads 0 and takes no write.
    Reserved,
}

use Register::*;

/// The registers at one port: where page 0 is read, where it is written, and of page 1.
#[derive(Clone, Copy)]
pub struct Row {
    pub read: Register,
    pub write: Register,
    pub page_1: Register,
}

macro_rules! row {
    ($read:expr, $write:expr, $page_1:expr) => {
        Row {
            read: $read,
            write: $write,
            page_1: $page_1,
        }
    };
}

/// The registers at ports 0x00 to 0x0F.
const REGISTER_MAP: [Row; 16] = [
    row!(Command, Command, Command),
    row!(Reserved, PageStart, Physical(0)),
    row!(Reserved, PageStop, Physical(1)),
    row!(Boundary, Boundary, Physical(2)),
    row!(TransmitStatus, TransmitPage, Physical(3)),
    row!(Collisions, TransmitCountLow, Physical(4)),
    row!(Reserved, TransmitCountHigh, Physical(5)),
    row!(InterruptStatus, InterruptStatus, Current),
    row!(RemoteAddressLow, RemoteAddressLow, Multicast(0)),
    row!(RemoteAddressHigh, RemoteAddressHigh, Multicast(1)),
    row!(Reserved, RemoteCountLow, Multicast(2)),
    row!(Reserved, RemoteCountHigh, Multicast(3)),
    row!(ReceiveStatus, ReceiveConfiguration, Multicast(4)),
    row!(AlignmentErrors, TransmitConfiguration, Multicast(5)),
    row!(ChecksumErrors, DataConfiguration, Multicast(6)),
    row!(MissedPackets, InterruptMask, Multicast(7)),
];

/// The register that is read at a port.
pub fn read_at(page: u8, port: u8) -> Register
    requires { port < 16 }
    ensures { result ≡ read_at page port }
{
    if port == 0 {
        return Command;
    }
    let row = REGISTER_MAP[usize::from(port)];
    match page {
        0 => row.read,
        1 => row.page_1,
        _ => Reserved,
    }
}

/// The register that is written at a port.
pub fn write_at(page: u8, port: u8) -> Register
    requires { port < 16 }
    ensures { result ≡ write_at page port }
{
    if port == 0 {
        return Command;
    }
    let row = REGISTER_MAP[usize::from(port)];
    match page {
        0 => row.write,
        1 => row.page_1,
        _ => Reserved,
    }
}
