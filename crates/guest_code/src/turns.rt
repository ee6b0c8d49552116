//! Turns: instructions that are made in a row.

ghost use Rattle.std.specs.Prelude.{◌≡◌, ◌≢◌, ℕ, ◌<◌, ◌≤◌, true};
ghost use Rattle.ia32_step.specs.Machine.{machine, outcome, answer_to};
ghost use Rattle.legal_run.specs.After.{turned};
ghost use Rattle.legal_run.specs.Run.{is_moved};

use ia32_step::{Decodings, Regs, Stepped, step_decoded};
use nd_mem::Memory;

/// How many instructions a turn made, and what the step behind them answered: `Went` where the
/// turn ended because it may make no more.
#[derive(Drop)]
pub struct Turned {
    pub count: u8,
    pub last: Stepped,
}

/// Makes at most `most` instructions in a row.
pub fn make_turn(regs: &mut Regs, memory: &mut Memory, most: u8) -> Turned
    ensures count { result.count ≤ most }
    ensures moves { (k : ℕ) → k < result.count → is_moved (outcome (turned k (machine regs.old memory.old))) ≡ true }
    ensures state { machine regs.new memory.new ≡ turned result.count (machine regs.old memory.old) }
    ensures whole { result.last ≡ Stepped.Went → result.count ≡ most }
    ensures ending { result.last ≢ Stepped.Went → answer_to (outcome (machine regs.new memory.new)) ≡ result.last }
{
    let mut decodings = Decodings::new();
    let mut count = 0;
    while count < most {
        match step_decoded(&mut decodings, regs, memory) {
            Stepped::Went => count += 1,
            last => return Turned { count, last },
        }
    }
    Turned {
        count,
        last: Stepped::Went,
    }
}
