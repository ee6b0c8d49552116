//! The rows of a state of the owner machine.

ghost use Rattle.std.specs.Prelude.{◌≤◌, vec_len};

use owner_machine::{Adapter, Context, Driver, Next};
use owner_rows::{Loans, Packets, Requests};

/// A state of the owner machine: its rows, with their counts.
#[derive(Drop)]
pub struct Ledger {
    pub packets: Packets,
    pub loans: Loans,
    pub requests: Requests,
    pub adapters: Vec<Adapter>,
    pub drivers: Vec<Driver>,
    pub contexts: [Context; 16],
    /// The miniport has a MiniportCancelSendPackets.
    pub cancelsend: bool,
    /// The miniport has a MiniportPnPEventNotify.
    pub pnpevent: bool,
    /// How many enters there were.
    pub enters: u64,
    /// What stood directly before.
    pub next: Next,
    ghost few: { vec_len adapters ≤ 255 },
}
