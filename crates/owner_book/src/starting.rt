//! The first state of a book.

ghost use Rattle.std.specs.Prelude.{◌≡◌, ◌≤◌, IfOk, map, replicate, vec_len};
ghost use Rattle.owner_rules.specs.State.{owner_of};
ghost use Rattle.owner_book.specs.Starting.{begun};
ghost use Rattle.owner_machine.specs.Legal.{new_adapter, new_driver};

use nd_base::{AdapterNo, Bytes, OutOfMemory, Phase};
use owner_machine::{Adapter, Binding, CancelIds, Context, Driver, Events, Next};
use owner_rows::{Loans, Packets, Requests};
use owner_rules::Ledger;
use std::alloc::Global;

fn new_adapter(alloc: Global) -> Adapter
    ensures { result ≡ new_adapter }
{
    Adapter {
        phase: Phase::Starting,
        deserialized: false,
        held_back: false,
        owes_reset: false,
        cancels: CancelIds::new(alloc),
        events: Events::new(alloc),
    }
}

fn new_driver(alloc: Global, adapter: AdapterNo) -> Driver
    ensures { result ≡ new_driver adapter }
{
    Driver {
        adapter,
        binding: Binding::Unbound,
        filter: 0,
        list: Bytes::new(alloc),
    }
}

/// So many adapters that are starting.
#[tactic(auto, using(crate::proofs::Starts::one_more))]
pub(crate) fn new_adapters(alloc: Global, count: u8) -> Result<Vec<Adapter>, OutOfMemory>
    ensures items { IfOk result (λ adapters. adapters.items ≡ replicate count new_adapter) }
    ensures few { IfOk result (λ adapters. vec_len adapters ≤ 255) }
{
    let mut adapters = Vec::new(alloc);
    for n in 0..count {
        adapters.push(new_adapter(alloc))?;
    }
    Ok(adapters)
}

/// A driver for each of these adapters, not bound yet.
#[tactic(auto, using(crate::proofs::Starts::mapped_more, crate::proofs::Starts::mapped_all))]
pub(crate) fn new_drivers(alloc: Global, adapters: &[AdapterNo]) -> Result<Vec<Driver>, OutOfMemory>
    ensures { IfOk result (λ drivers. drivers.items ≡ map new_driver adapters.now) }
{
    let mut drivers = Vec::new(alloc);
    for adapter in adapters {
        drivers.push(new_driver(alloc, *adapter))?;
    }
    Ok(drivers)
}

/// The rows of a book before the first entry.
pub(crate) fn new_ledger(alloc: Global, adapters: Vec<Adapter>, drivers: Vec<Driver>) -> Ledger
    requires { vec_len adapters ≤ 255 }
    ensures { owner_of result ≡ begun adapters.items drivers.items }
{
    Ledger {
        packets: Packets::new(alloc),
        loans: Loans::new(alloc),
        requests: Requests::new(alloc),
        adapters,
        drivers,
        contexts: [Context::Free; 16],
        cancelsend: false,
        pnpevent: false,
        enters: 0,
        next: Next::Free,
    }
}
