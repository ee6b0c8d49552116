//! Protocol drivers above the library: what one asks, what it is told, what it is to play one, and
//! the drivers that follow a script.
//!
//! A driver's loop is in specs/Loop.antt; what a protocol means and the laws that it keeps, in
//! specs/Meaning.antt; what a driver with a script does, in specs/Steps.antt and specs/Follows.antt.
#![tactic(auto)]

mod burst;
mod events;
mod laws;
mod loans;
mod packet;
mod protocol;
mod script_driver;
mod section;

pub use driver_script::{AdapterLine, Line, ParamLine, Script, ScriptRefusal};
pub use events::{Act, Command, Event, Notice, Outcome, Point};
pub use laws::{acts_are_told, loans_are_kept, scripts_are_followed};
pub use log_fields::{Cause, Condition, Question};
pub use packet::{Loan, Packet};
pub use protocol::Protocol;
pub use script_driver::ScriptDriver;
