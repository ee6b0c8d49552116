//! What stands in the fields of a log's lines, beside numbers and lists.
//!
//! The numbers and names are this project's own; `OID` is the DDK's.

use nd_base::{Breach, Bytes};

/// What a driver asks of an adapter: an OID request.
#[derive(Drop)]
pub enum Question {
    /// The value of an OID, into a buffer of so many bytes.
    Query { oid: u32, length: u32 },
    /// To set an OID to these bytes.
    Set { oid: u32, bytes: Bytes },
}

/// Why an adapter was stopped.
#[derive(Clone, Copy, PartialEq, Eq)]
pub enum Cause {
    /// Its driver broke the rule of this number, 1 to 14.
    Breach(Breach),
    /// The budget of instructions is spent.
    Budget,
    /// Memory ran out.
    Memory,
}

/// What a driver waits for.
#[derive(Clone, Copy, PartialEq, Eq)]
pub enum Condition {
    /// Its adapter runs.
    Up,
    /// All that it sent is completed.
    Sent,
    /// All that it asked is answered.
    Replies,
    /// So many frames were indicated to it.
    Frames(u64),
    /// There is room for another packet.
    Room,
    /// Nothing of it is outstanding.
    All,
}

/// How an instruction failed.
#[derive(Clone, Copy, PartialEq, Eq)]
pub enum FaultKind {
    /// A division by zero, or a quotient that is too large.
    Divide,
    /// An instruction outside the profile.
    Outside,
    /// No memory at the address.
    Unmapped,
    /// Memory that may not be read.
    NotReadable,
    /// Memory that may not be written.
    NotWritable,
    /// Memory that may not be executed.
    NotExecutable,
}

/// Which way a port's bytes went.
#[derive(Clone, Copy, PartialEq, Eq)]
pub enum Direction {
    /// From the card.
    In,
    /// To the card.
    Out,
}

/// The functions of a miniport that the library enters, as the DDK names them.
#[derive(Clone, Copy, PartialEq, Eq)]
pub enum Handler {
    DriverEntry,
    Initialize,
    Halt,
    Reset,
    CheckForHang,
    Isr,
    DisableInterrupt,
    EnableInterrupt,
    HandleInterrupt,
    /// The function of an NDIS timer.
    Timer,
    /// The function of a call of NdisMSynchronizeWithInterrupt.
    Sync,
    Send,
    SendPackets,
    ReturnPacket,
    Query,
    Set,
    TransferData,
    CancelSend,
    PnpEvent,
    Shutdown,
}
