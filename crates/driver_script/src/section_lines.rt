//! The lines of a driver's section.

use log_fields::{Condition, Question};
use nd_base::Bytes;

/// What a driver does.
#[derive(Drop)]
pub enum Line {
    /// It sends a packet of these bytes, 14 to 1,514.
    Send(Bytes),
    /// It sends so many packets, 1 to 10,000, of so many bytes, 14 to 1,514.
    Burst { count: u16, length: u16 },
    /// It asks its adapter a question.
    Ask(Question),
    /// It waits; for `Frames`, of a number below 2^32. No line waits for `Room`.
    Await(Condition),
    /// It keeps the loans that it is told of from now on.
    Hold,
    /// It returns the loans that it keeps, the oldest first, and keeps no more.
    Release,
}
