//! The entries of a log.
//!
//! The numbers and names are this project's own; the statuses are the DDK's.

use log_fields::{
    Cause, Condition, Direction, FaultKind, Handler, Holders, Question, Words, Writes,
};
use nd_base::{AdapterNo, Addr, BindingNo, Bytes, CtxNo, LoanNo, PacketNo, RequestNo, Status};

/// One entry of a log. Each kind is a line of its own: its name, and these fields in this order.
#[derive(Drop)]
pub enum Entry {
    /// A driver is bound to an adapter.
    Bind {
        driver: BindingNo,
        adapter: AdapterNo,
    },
    /// A driver unbinds.
    Unbind {
        driver: BindingNo,
    },
    /// A driver that waits hears that nothing more can happen before it acts.
    Quiet {
        driver: BindingNo,
    },
    /// A driver is done.
    Done {
        driver: BindingNo,
    },
    /// A driver sends a packet of these bytes.
    Send {
        driver: BindingNo,
        packet: PacketNo,
        bytes: Bytes,
    },
    /// A packet is handed to its miniport.
    Hand {
        packet: PacketNo,
    },
    /// A miniport without resources gives a packet back into the queue of its adapter.
    Requeue {
        packet: PacketNo,
    },
    /// A miniport completes a packet that a reset had aborted, and that is completed already.
    Late {
        packet: PacketNo,
    },
    /// A packet is completed with a status.
    Complete {
        packet: PacketNo,
        status: Status,
    },
    /// An adapter indicates a packet of these bytes; these drivers hold the loan. `copied` where the
    /// miniport has its packet back at once.
    Indicate {
        adapter: AdapterNo,
        loan: LoanNo,
        bytes: Bytes,
        holders: Holders,
        copied: bool,
    },
    /// A driver returns a loan.
    Return {
        driver: BindingNo,
        loan: LoanNo,
    },
    /// A loan is back at its miniport; `failed` where its adapter was stopped.
    Back {
        loan: LoanNo,
        failed: bool,
    },
    /// A driver asks a question of its adapter.
    Ask {
        driver: BindingNo,
        request: RequestNo,
        question: Question,
    },
    /// A request is handed to its miniport.
    HandAsk {
        request: RequestNo,
    },
    /// A request is answered with a status, and the bytes that a query gave.
    Answer {
        request: RequestNo,
        status: Status,
        bytes: Bytes,
    },
    /// A handler is entered in a context, with its argument words and what entering it wrote beside
    /// its stack. DriverEntry has no adapter.
    Enter {
        adapter: Option<AdapterNo>,
        context: CtxNo,
        handler: Handler,
        words: Words,
        writes: Writes,
    },
    /// The handler of a context returns EAX.
    Leave {
        context: CtxNo,
        eax: u32,
    },
    /// A context made so many instructions in a row.
    Turn {
        context: CtxNo,
        count: u64,
    },
    /// A context calls the import of this number, 1 to 64, with its argument words.
    Call {
        context: CtxNo,
        import: u8,
        words: Words,
    },
    /// The call of a context is answered with EAX and these writes.
    Reply {
        context: CtxNo,
        eax: u32,
        writes: Writes,
    },
    /// A context waits for the spin lock at an address.
    Spin {
        context: CtxNo,
        lock: Addr,
    },
    /// An adapter's port, 1 or 2 bytes wide, was read or written.
    Port {
        adapter: AdapterNo,
        direction: Direction,
        width: u8,
        port: u8,
        bytes: Bytes,
    },
    /// The frame of this number, from 0, arrives.
    WireIn {
        frame: u64,
    },
    /// An adapter sends a frame of these bytes.
    WireOut {
        adapter: AdapterNo,
        bytes: Bytes,
    },
    /// The clock goes on to this value.
    Time {
        clock: u64,
    },
    /// A reset of an adapter begins.
    ResetBegin {
        adapter: AdapterNo,
    },
    /// A reset of an adapter ends with a status.
    ResetEnd {
        adapter: AdapterNo,
        status: Status,
    },
    /// A context ends by an instruction that failed. For `Divide` and `Outside` the address is EIP.
    Fault {
        context: CtxNo,
        kind: FaultKind,
        address: Addr,
    },
    /// An adapter is stopped.
    Stop {
        adapter: AdapterNo,
        cause: Cause,
    },
    /// A driver waits.
    Await {
        driver: BindingNo,
        condition: Condition,
    },
    /// A packet has this cancel id.
    Tag {
        packet: PacketNo,
        id: u32,
    },
    /// A driver cancels its packets of this id.
    Cancel {
        driver: BindingNo,
        id: u32,
    },
    /// A driver signals the event of this number, with its bytes; `taken` where the miniport's handler
    /// is to have it.
    Event {
        driver: BindingNo,
        number: u32,
        bytes: Bytes,
        taken: bool,
    },
}
