//! Instructions in source.

ghost use Rattle.std.specs.Prelude.{◌≡◌, ◌∷◌};
ghost use Rattle.std.specs.Option.{option_map};
ghost use Rattle.nd_base.specs.Words.{words};
ghost use Rattle.asm_lines.specs.Arguments.{argument_seen};
ghost use Rattle.asm_lines.specs.Statements.{prefix_of, operands_seen, statement_seen, operands_of, more_operands, operation, statement_of};

use crate::argument::{Argument, argument_of};
use crate::mnemonic::{Mnemonic, mnemonic_of};
use crate::parts::cut;
use ia32_decode::Repeat;
use nd_base::words::next_word;

/// The prefix that an instruction is written behind.
#[derive(Clone, Copy)]
pub struct Prefix {
    pub lock: bool,
    pub repeat: Repeat,
}

const NO_PREFIX: Prefix = Prefix {
    lock: false,
    repeat: Repeat::Absent,
};

/// The operands of an instruction, in the order of Intel's manual.
#[derive(Clone, Copy)]
pub struct Operands<'a> {
    pub first: Argument<'a>,
    pub second: Argument<'a>,
    pub third: Argument<'a>,
}

/// An instruction as it is written.
#[derive(Clone, Copy)]
pub struct Statement<'a> {
    pub prefix: Prefix,
    pub mnemonic: Mnemonic,
    pub operands: Operands<'a>,
}

/// The prefix of a name.
fn prefix_of(word: &[u8]) -> Option<Prefix>
    ensures { result ≡ prefix_of word.now }
{
    if word == b"lock".as_slice() {
        Some(Prefix {
            lock: true,
            repeat: Repeat::Absent,
        })
    } else if word == b"rep".as_slice() {
        Some(Prefix {
            lock: false,
            repeat: Repeat::F3,
        })
    } else if word == b"repne".as_slice() {
        Some(Prefix {
            lock: false,
            repeat: Repeat::F2,
        })
    } else {
        None
    }
}

/// The operands behind the first.
#[tactic(auto, unfolding(crate::specs::Statements::more_operands))]
fn more_operands<'a>(first: Argument<'a>, text: &'a [u8]) -> Option<Operands<'a>>
    ensures { option_map operands_seen result ≡ more_operands (argument_seen first.entry) text.now }
{
    let (part, behind) = cut(b',', text);
    let second = argument_of(part)?;
    let Some(text) = behind else {
        return Some(Operands {
            first,
            second,
            third: Argument::Absent,
        });
    };
    let third = argument_of(text)?;
    Some(Operands {
        first,
        second,
        third,
    })
}

/// The operands: the text behind the mnemonic, and what is behind the first comma.
#[tactic(auto, unfolding(crate::specs::Statements::operands_of))]
fn operands_of<'a>(text: &'a [u8], behind: Option<&'a [u8]>) -> Option<Operands<'a>>
    ensures { option_map operands_seen result ≡ operands_of (words text.now) (option_map (λ rest. rest.now) behind.entry) }
{
    if next_word(text).is_none() {
        return if behind.is_some() {
            None
        } else {
            Some(Operands {
                first: Argument::Absent,
                second: Argument::Absent,
                third: Argument::Absent,
            })
        };
    }
    let first = argument_of(text)?;
    match behind {
        Some(others) => more_operands(first, others),
        None => Some(Operands {
            first,
            second: Argument::Absent,
            third: Argument::Absent,
        }),
    }
}

/// An instruction of a mnemonic behind a prefix.
#[tactic(auto, unfolding(crate::specs::Statements::operation))]
fn operation<'a>(
    prefix: Prefix,
    name: &[u8],
    text: &'a [u8],
    behind: Option<&'a [u8]>,
) -> Option<Statement<'a>>
    ensures { option_map statement_seen result ≡ operation prefix name.now (words text.now) (option_map (λ rest. rest.now) behind.entry) }
{
    let mnemonic = mnemonic_of(name)?;
    let operands = operands_of(text, behind)?;
    Some(Statement {
        prefix,
        mnemonic,
        operands,
    })
}

/// The instruction whose first word is given, with the text behind that, and what is behind the
/// first comma.
#[tactic(auto, unfolding(crate::specs::Statements::statement_of))]
pub fn statement_of<'a>(
    first: &'a [u8],
    text: &'a [u8],
    behind: Option<&'a [u8]>,
) -> Option<Statement<'a>>
    ensures { option_map statement_seen result ≡ statement_of (first.now ∷ words text.now) (option_map (λ rest. rest.now) behind.entry) }
{
    let Some(prefix) = prefix_of(first) else {
        return operation(NO_PREFIX, first, text, behind);
    };
    let (name, text) = next_word(text)?;
    operation(prefix, name, text, behind)
}
