//! What drivers ask, and what they are told.

use crate::packet::{Loan, Packet};
use log_fields::{Cause, Condition, Question};
use nd_base::{Bytes, LoanNo, PacketNo, RequestNo, Status};

/// What a driver asks of its node.
#[must_use]
pub enum Command {
    /// To be bound to its adapter.
    Bind,
    /// To be bound no more.
    Unbind,
    /// It is done.
    Done,
    /// To send a packet.
    Send(Packet),
    /// An OID request.
    Ask(Question),
    /// A loan goes back.
    Return(Loan),
    /// To wait.
    Await(Condition),
}

/// What comes to a driver.
#[must_use]
pub enum Notice {
    /// A packet that it sent is completed with a status, and comes back.
    Completed(PacketNo, Status, Packet),
    /// A frame on loan.
    Frame(Loan, Bytes),
    /// A frame that was copied for it.
    Copied(Bytes),
    /// A request is answered with a status, and the bytes that a query gave.
    Answered(RequestNo, Status, Bytes),
    /// Its adapter was stopped.
    Stopped(Cause),
}

/// What a driver does.
#[must_use]
pub enum Event {
    /// It gives a command.
    Command(Command),
    /// It lets the node take a step.
    Pump,
    /// It takes its oldest notice.
    TakeNotice,
    /// Its protocol was refused memory.
    Starve,
}

/// What an event is answered with.
#[must_use]
pub enum Outcome {
    /// Bind of a driver that was bound before.
    AlreadyBound(Command),
    /// A command that only a bound driver may give.
    NotBound(Command),
    /// A packet for which there is no room.
    Held(Packet),
    /// Unbind of a driver with a loan, packet or request outstanding.
    StillHolds,
    /// Return of a loan that went home when its adapter was stopped.
    AlreadyBack(LoanNo),
    /// Await while a notice is not taken.
    News,
    /// The condition of an Await holds.
    Met,
    /// The condition of an Await does not hold.
    Waiting,
    /// The driver is bound.
    Bound,
    /// The driver is bound no more.
    Unbound,
    /// The driver is done.
    Ended,
    /// The packet has this number.
    Sent(PacketNo),
    /// The request has this number.
    Asked(RequestNo),
    /// The loan of this number is returned.
    Returned(LoanNo),
    /// The oldest notice.
    Notice(Notice),
    /// The node took a step.
    Stepped,
    /// Nothing more can happen before a driver acts.
    Quiet,
    /// There is no notice, or no step.
    Nothing,
    /// Memory ran out.
    OutOfMemory(Event),
}

/// What a protocol wants.
#[must_use]
pub enum Act {
    /// To give a command.
    Do(Command),
    /// To come to its end.
    Finish,
}

/// Where a driver is in its loop.
#[derive(Clone, Copy, Debug, PartialEq, Eq, Drop)]
pub enum Point {
    /// It is not bound yet.
    Begin,
    /// It takes notices.
    Taking,
    /// It asks its protocol.
    Asking,
    /// It waits.
    Pumping,
    /// All has come.
    Unbinding,
    /// It is unbound, and takes the last notices.
    Clearing,
    /// It gives back what is kept, and is done.
    Closing,
    /// It has ended.
    End,
}
