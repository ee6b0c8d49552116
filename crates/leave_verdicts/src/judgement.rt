//! What is drawn from a leave.

ghost use Rattle.std.specs.Prelude.{◌≡◌, [], ◌∷◌, IfOk};
ghost use Rattle.std.specs.Option.{option_map};
ghost use Rattle.legal_run.specs.Calls.{Breaking, Draws};
ghost use Rattle.handler_leaves.specs.Leaves.{broken};
ghost use Rattle.leave_verdicts.specs.Judged.{drawn_as};

use call_log::Entry;
use nd_base::{Breach, OutOfMemory};
use std::alloc::Global;

/// What is drawn from a leave: the rule that it breaks, or the entries that stand directly behind it.
#[derive(Drop)]
pub enum Judgement {
    Breaks(Breach),
    Draws(Vec<Entry>),
}

/// No rule is broken, and nothing stands behind it.
pub(crate) fn nothing(alloc: Global) -> Judgement
    ensures { drawn_as result ≡ Draws [] }
{
    Judgement::Draws(Vec::new(alloc))
}

/// One entry stands behind it.
pub(crate) fn one(alloc: Global, entry: Entry) -> Result<Judgement, OutOfMemory>
    ensures { IfOk result (λ j. drawn_as j ≡ Draws (entry ∷ [])) }
{
    let mut entries = Vec::new(alloc);
    entries.push(entry)?;
    Ok(Judgement::Draws(entries))
}

/// It breaks a rule of this number.
pub(crate) fn breaks(rule: u8) -> Judgement
    ensures { drawn_as result ≡ Breaking rule }
{
    Judgement::Breaks(Breach(rule))
}

/// The rule that a leave breaks, if it breaks one.
pub fn broken(judgement: &Judgement) -> Option<Breach>
    ensures { option_map (λ b. b.0) result ≡ broken (drawn_as judgement.now) }
{
    match judgement {
        Judgement::Breaks(rule) => Some(*rule),
        Judgement::Draws(_) => None,
    }
}
