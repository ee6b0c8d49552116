//! Laws of single entries of a run: each is the contract of a function that does nothing.

ghost use Rattle.legal_run.specs.EntryLaws.{CauseLaws, CodeLaws, DutyLaws, EntryLaws};
ghost use Rattle.legal_run.specs.VerdictLaws.{VerdictLaws};

/// The clock jumps, and a driver hears that it waits in vain, only where nothing can happen by itself; a
/// turn is as long as it must be; a handler is entered with its words and writes; a reply is the answer
/// to the open call; and behind a call stand what it makes and its reply.
pub fn entry_laws()
    ensures { EntryLaws }
{}

/// A stop has its cause.
pub fn cause_laws()
    ensures { CauseLaws }
{}

/// A context's registers and memory follow the code: through a turn, and behind the reply of a call.
pub fn code_laws()
    ensures { CodeLaws }
{}

/// What the owner machine asks for has an entry that serves it: no run is stuck in a tail, in front of a
/// refusal, where a question is to be handed, or where a reset is to be entered.
pub fn duties_are_served()
    ensures { DutyLaws }
{}

/// A handler is about the packets or the request that its enter hands, and behind its leave stand its
/// verdicts on them, or on its reset.
pub fn verdict_laws()
    ensures { VerdictLaws }
{}
