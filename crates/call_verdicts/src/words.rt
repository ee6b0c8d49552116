//! The words of a call.

ghost use Rattle.std.specs.Prelude.{◌≡◌, ◌<◌};
ghost use Rattle.import_answers.specs.World.{word};
ghost use Rattle.guest_calls.specs.Rows.{words_of};

use import_table::Call;

/// A call has room for so many words.
const MOST_WORDS: usize = 8;

/// The words of a call that were read.
pub(crate) fn words_of(call: &Call) -> &[u32]
    ensures { result.now ≡ words_of call.now }
{
    &call.words[..usize::from(call.count).min(MOST_WORDS)]
}

/// Argument word k of a call, from 1; 0 where it has none.
pub(crate) fn word(words: &[u32], k: usize) -> u32
    requires { 0 < k }
    ensures { result ≡ word words.now k }
{
    match words.get(k - 1) {
        Some(word) => *word,
        None => 0,
    }
}
