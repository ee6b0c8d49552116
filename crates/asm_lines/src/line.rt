//! Lines of source.

ghost use Rattle.std.specs.Prelude.{◌≡◌, ◌∷◌};
ghost use Rattle.std.specs.Option.{option_map};
ghost use Rattle.nd_base.specs.Words.{words};
ghost use Rattle.asm_lines.specs.Lines.{content_seen, label_in, import_in, two_words, few_words, content_of, line_content};

use crate::parts::cut;
use crate::statement::{Statement, statement_of};
use crate::value::{Value, are_octets, is_label, is_name, value_of};
use nd_base::words::next_word;

/// What a line says.
#[derive(Clone, Copy)]
pub enum Content<'a> {
    Nothing,
    /// A label of this name stands here.
    Label(&'a [u8]),
    /// Bytes, by their hexadecimal digits.
    Octets(&'a [u8]),
    /// Four bytes.
    Word(Value<'a>),
    /// A call through the word of the import of this name.
    Import(&'a [u8]),
    Instruction(Statement<'a>),
}

/// The name in front of a colon.
#[tactic(auto, unfolding(crate::specs::Lines::label_in))]
fn label_in(word: &[u8]) -> Option<&[u8]>
    ensures { option_map (λ name. name.now) result ≡ label_in word.now }
{
    let (name, behind) = cut(b':', word);
    match behind {
        Some([]) if is_label(name) => Some(name),
        _ => None,
    }
}

/// The name behind `@`.
#[tactic(auto, unfolding(crate::specs::Lines::import_in))]
fn import_in(word: &[u8]) -> Option<&[u8]>
    ensures { option_map (λ name. name.now) result ≡ import_in word.now }
{
    let (first, name) = word.split_first()?;
    if *first == b'@' && is_name(name) {
        Some(name)
    } else {
        None
    }
}

/// What a line of two words says, if it is data or a call of an import.
#[tactic(auto, unfolding(crate::specs::Lines::two_words))]
fn two_words<'a>(first: &[u8], second: &'a [u8]) -> Option<Content<'a>>
    ensures { option_map content_seen result ≡ two_words first.now second.now }
{
    if first == b"db".as_slice() && are_octets(second) {
        return Some(Content::Octets(second));
    }
    if first == b"dd".as_slice() {
        return Some(Content::Word(value_of(second)?));
    }
    if first == b"call".as_slice() {
        return Some(Content::Import(import_in(second)?));
    }
    None
}

/// What a line without a comma says, if it is a label, data or a call of an import.
#[tactic(auto, unfolding(crate::specs::Lines::few_words))]
fn few_words<'a>(first: &'a [u8], text: &'a [u8]) -> Option<Content<'a>>
    ensures { option_map content_seen result ≡ few_words (first.now ∷ words text.now) }
{
    let Some((second, behind)) = next_word(text) else {
        return Some(Content::Label(label_in(first)?));
    };
    if next_word(behind).is_some() {
        return None;
    }
    two_words(first, second)
}

/// What a line with words says.
#[tactic(auto, unfolding(crate::specs::Lines::content_of))]
fn content_of<'a>(first: &'a [u8], text: &'a [u8], behind: Option<&'a [u8]>) -> Option<Content<'a>>
    ensures { option_map content_seen result ≡ content_of (first.now ∷ words text.now) (option_map (λ rest. rest.now) behind.entry) }
{
    if behind.is_none() {
        let content = few_words(first, text);
        if content.is_some() {
            return content;
        }
    }
    let statement = statement_of(first, text, behind)?;
    Some(Content::Instruction(statement))
}

/// What a line says: none where it is no line of source.
#[tactic(auto, unfolding(crate::specs::Lines::line_content))]
pub fn line_content(line: &[u8]) -> Option<Content<'_>>
    ensures { option_map content_seen result ≡ line_content line.now }
{
    if let [b'#', ..] = line {
        return Some(Content::Nothing);
    }
    let (part, behind) = cut(b',', line);
    let Some((first, text)) = next_word(part) else {
        return if behind.is_some() {
            None
        } else {
            Some(Content::Nothing)
        };
    };
    content_of(first, text, behind)
}
