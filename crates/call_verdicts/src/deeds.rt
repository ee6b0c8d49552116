//! What a call does.

ghost use Rattle.std.specs.Prelude.{◌≡◌, [], ◌∷◌, IfOk};
ghost use Rattle.legal_run.specs.Calls.{Broken, makes};
ghost use Rattle.call_verdicts.specs.Deeds.{did_as};

use call_log::Entry;
use log_fields::Writes;
use miniport_state::Wait;
use nd_base::{Breach, OutOfMemory};
use std::alloc::Global;

/// What a call does: it breaks a rule; it waits; or it makes entries, which lend these descriptors, and
/// then has its reply, with these writes behind those of its row.
#[derive(Drop)]
pub enum Deed {
    Broken(Breach),
    Waits(Wait),
    Made(Vec<Entry>, Vec<u32>, Writes),
}

/// It breaks the rule of this number.
pub(crate) fn breaks(rule: u8) -> Deed
    ensures { did_as result ≡ Broken rule }
{
    Deed::Broken(Breach(rule))
}

/// It makes nothing but its reply.
pub(crate) fn nothing(alloc: Global) -> Deed
    ensures { did_as result ≡ makes [] }
{
    Deed::Made(Vec::new(alloc), Vec::new(alloc), Writes::new(alloc))
}

/// It makes one entry.
pub(crate) fn one(alloc: Global, entry: Entry) -> Result<Deed, OutOfMemory>
    ensures { IfOk result (λ d. did_as d ≡ makes (entry ∷ [])) }
{
    let mut entries = Vec::new(alloc);
    entries.push(entry)?;
    Ok(Deed::Made(entries, Vec::new(alloc), Writes::new(alloc)))
}
