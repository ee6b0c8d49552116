//! The answer of a call.

ghost use Rattle.std.specs.Prelude.{◌≡◌, ◌≤◌};
ghost use Rattle.guest_world.specs.Worlds.{CanAnswer};
ghost use Rattle.import_table.specs.Table.{row_of};
ghost use Rattle.import_answers.specs.World.{IsNumber};
ghost use Rattle.import_answers.specs.Outcomes as outcomes;
ghost use Rattle.import_answers.specs.Answers.{outcome};
ghost use Rattle.call_replies.specs.Wanting.{ComesOr};
ghost use Rattle.calls_ports.specs.Cards.{HasAdapter};
ghost use Rattle.guest_calls.specs.Rows.{row_answer, words_of, IsCall, Stays};

use crate::groups;
use guest_world::{Answer, CallRefusal, Caller, Reply, SentFrames, World};
use import_table::{Call, import_row, table_laws};
use log_fields::Writes;
use nd_base::Breach;
use std::alloc::Global;

/// A call of which a word can't be read.
const ARGUMENTS_RULE: Breach = Breach(9);

/// NdisMSynchronizeWithInterrupt.
const SYNCHRONIZE: u8 = 15;

/// By the import's number, behind its level and the number of its words.
#[tactic(auto, using(crate::proofs::Wanting::comes_or, crate::proofs::Wanting::card_or, crate::proofs::Wanting::live_or))]
fn served(
    alloc: Global,
    world: &mut World,
    caller: Caller,
    import: u8,
    words: &[u32; 8],
) -> Result<Answer, CallRefusal>
    requires can { CanAnswer world.old caller }
    requires number { IsNumber caller.adapter }
    requires there { HasAdapter world.old caller.adapter }
    requires import { (1 ≤ import) × (import ≤ 64) }
    ensures { ComesOr (Stays caller.adapter) (row_answer import world.old caller words.now) world.old result world.new }
{
    match import {
        0..=10 => groups::setup(alloc, world, caller, import, words),
        11..=20 => groups::resources(alloc, world, caller, import, words),
        21..=32 => groups::descriptors(alloc, world, caller, import, words),
        33..=38 => groups::locks(alloc, world, caller, import, words),
        39..=52 => groups::completions(alloc, world, &caller, import, words),
        53..=60 => groups::ports(alloc, world, caller, import, words),
        _ => groups::run_time(alloc, world, caller, import, words),
    }
}

/// What a call answers, or the first rule that it breaks, in the order 5 of levels, 9 of words and
/// handles, 6 of locks, 2 of what is live. Want of memory comes where no rule is broken.
pub fn answer(
    alloc: Global,
    world: &mut World,
    caller: Caller,
    call: &Call,
) -> Result<Answer, CallRefusal>
    requires can { CanAnswer world.old caller }
    requires number { IsNumber caller.adapter }
    requires there { HasAdapter world.old caller.adapter }
    requires call { IsCall call.now }
    ensures { ComesOr (Stays caller.adapter) (outcome world.old caller (row_of call.now.import) (words_of call.now)) world.old result world.new }
{
    table_laws();
    let row = import_row(call.import);
    if let Err(broken) = world.levels.check(caller.context, row.low, row.high) {
        return Err(CallRefusal::Broken(broken));
    }
    if call.count < row.words {
        return Err(CallRefusal::Broken(ARGUMENTS_RULE));
    }
    served(alloc, world, caller, call.import, &call.words)
}

/// The reply of a call that has waited: of NdisMSynchronizeWithInterrupt EAX is AL of its function.
pub fn resumed(alloc: Global, import: u8, al: u8) -> Reply
    ensures { result ≡ outcomes.resumed import al }
{
    Reply {
        eax: if import == SYNCHRONIZE {
            u32::from(al)
        } else {
            0
        },
        writes: Writes::new(alloc),
        cost: 1,
        sent: SentFrames::new(alloc),
    }
}
