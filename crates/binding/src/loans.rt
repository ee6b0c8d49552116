//! The loans that stand in outcomes.

ghost use Rattle.std.specs.Prelude.{◌≡◌};
ghost use Rattle.binding.specs.Words.{in_command, in_event, in_notice, in_outcome, in_option};

use crate::events::{Command, Event, Notice, Outcome};
use crate::packet::Loan;

/// The loan of a command; a packet is spent.
fn loan_of_command(command: Command) -> Option<Loan>
    ensures { in_option result ≡ in_command command }
{
    match command {
        Command::Return(loan) => Some(loan),
        Command::Send(packet) => {
            drop(packet.spend());
            None
        }
        Command::Bind | Command::Unbind | Command::Done | Command::Ask(_) | Command::Await(_) =>
            None,
    }
}

/// The loan of an event's command; a packet is spent.
fn loan_of_event(event: Event) -> Option<Loan>
    ensures { in_option result ≡ in_event event }
{
    match event {
        Event::Command(command) => loan_of_command(command),
        Event::Pump | Event::TakeNotice | Event::Starve => None,
    }
}

/// The loan of a notice; a packet is spent.
fn loan_of_notice(notice: Notice) -> Option<Loan>
    ensures { in_option result ≡ in_notice notice }
{
    match notice {
        Notice::Frame(loan, _) => Some(loan),
        Notice::Completed(_, _, packet) => {
            drop(packet.spend());
            None
        }
        Notice::Copied(_) | Notice::Answered(_, _, _) | Notice::Stopped(_) => None,
    }
}

impl Outcome {
    /// The loan that an outcome brings, or gives back; a packet is spent.
    pub fn into_loan(self) -> Option<Loan>
        ensures { in_option result ≡ in_outcome self }
    {
        match self {
            Outcome::AlreadyBound(command) | Outcome::NotBound(command) => loan_of_command(command),
            Outcome::OutOfMemory(event) => loan_of_event(event),
            Outcome::Notice(notice) => loan_of_notice(notice),
            Outcome::Held(packet) => {
                drop(packet.spend());
                None
            }
            Outcome::StillHolds
            | Outcome::AlreadyBack(_)
            | Outcome::News
            | Outcome::Met
            | Outcome::Waiting
            | Outcome::Bound
            | Outcome::Unbound
            | Outcome::Ended
            | Outcome::Sent(_)
            | Outcome::Asked(_)
            | Outcome::Returned(_)
            | Outcome::Stepped
            | Outcome::Quiet
            | Outcome::Nothing => None,
        }
    }
}
