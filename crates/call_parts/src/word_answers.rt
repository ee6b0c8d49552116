//! Answers that write words.

ghost use Rattle.std.specs.Prelude.{◌≡◌, ◌++◌, OnOk, IfErr};
ghost use Rattle.import_answers.specs.Outcomes.{plain};
ghost use Rattle.call_parts.specs.Answered.{Answers, words_written};

use call_replies::{put_word, writes};
use guest_world::{Answer, CallRefusal};
use log_fields::Writes;
use std::alloc::Global;

/// Puts behind the others the writes of words, each at its address, its low byte first.
pub fn put_words(alloc: Global, list: &mut Writes, words: &[(u32, u32)]) -> Result<(), CallRefusal>
    ensures ok { OnOk result (list.new ≡ list.old ++ words_written words.now) }
    ensures err { IfErr result (λ e. e ≡ CallRefusal.OutOfMemory) }
{
    for (at, word) in words {
        put_word(alloc, list, *at, *word)?;
    }
    Ok(())
}

/// The answer of a call that writes words, each at its address, and returns 0.
pub fn with_words(alloc: Global, words: &[(u32, u32)]) -> Result<Answer, CallRefusal>
    ensures { Answers (plain 0 (words_written words.now)) result }
{
    let mut list = Writes::new(alloc);
    put_words(alloc, &mut list, words)?;
    Ok(writes(alloc, 0, list))
}
