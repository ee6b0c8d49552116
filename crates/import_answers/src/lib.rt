//! What each import answers: the rules that a call may break, its reply, and what it leaves.
//!
//! It is a definition on plain values (specs/): what a call may look at and change (World.antt), what
//! may come of it (Outcomes.antt), a row for each import, by the groups of the DDK (Registration,
//! Configuration, Resources, Timers, Blocks, Descriptors, Levels, Completions, Ports, Runtime), and the
//! rows in the order of their numbers (Answers.antt).
#![tactic(auto)]

ghost use Rattle.std.specs.Prelude.{◌≡◌, length};
ghost use Rattle.import_answers.specs.Answers.{answering};

/// Each of the 64 imports has a row.
#[tactic(auto, unfolding(crate::specs::Answers::answering))]
pub fn each_import_has_a_row()
    ensures { length answering ≡ 64 }
{}
