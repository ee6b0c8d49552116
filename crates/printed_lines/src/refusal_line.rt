//! The line of a refusal, of whatever file.

ghost use Rattle.std.specs.Prelude.{◌≡◌, IfOk, string_bytes};
ghost use Rattle.printed_lines.specs.RefusalLine.{refusal_line};

use nd_base::{Bytes, OutOfMemory};
use std::alloc::{AllocError, Global};

fn text(alloc: Global, words: &str, number: Option<u32>) -> Result<String, AllocError>
    ensures { IfOk result (λ text. string_bytes text ≡ refusal_line words.now number) }
{
    match number {
        Some(number) => format!(in alloc; "{words} {number}\n"),
        None => format!(in alloc; "{words}\n"),
    }
}

/// A line of words and a number, where there is one.
pub fn refusal_line(alloc: Global, words: &str, number: Option<u32>) -> Result<Bytes, OutOfMemory>
    ensures { IfOk result (λ line. line ≡ refusal_line words.now number) }
{
    let text = text(alloc, words, number)?;
    Bytes::copy(alloc, text.as_bytes())
}
