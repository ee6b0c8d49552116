//! What a command line may say.

ghost use Rattle.std.specs.Prelude.{◌≡◌, ◌↔◌, ℕ, List, IsTrue, [], ◌∷◌, map, MatchOption, string_bytes};
ghost use Rattle.ndis_run.specs.Words.{Form, IsForm, IsOperand, form_of};

use forged_miniports::{Kind, kind_named};

/// A command, with its operands.
#[derive(Clone, Copy, Debug, PartialEq, Eq)]
pub enum Command<'a> {
    /// `--help`: lists the commands.
    Help,
    /// `--version`: names the program and its version.
    Version,
    /// `run0 SYS LOG`: runs DriverEntry alone.
    RunZero {
        sys: &'a str,
        log: &'a str,
    },
    /// `show-image SYS`: prints what a driver's image holds.
    ShowImage {
        sys: &'a str,
    },
    /// `show-inf INF ID`: prints the parameters of a hardware id.
    ShowInf {
        inf: &'a str,
        id: &'a str,
    },
    /// `forge KIND SYS INF`: writes the files of a test miniport.
    Forge {
        kind: Kind,
        sys: &'a str,
        inf: &'a str,
    },
}

fn is_operand(word: &str) -> bool
    ensures { IsTrue result ↔ IsOperand word.now }
{
    !word.starts_with("--")
}

/// The command of one word.
fn command_alone<'a>(word: &'a str) -> Option<Command<'a>>
    ensures { MatchOption result ((form : Form) → IsForm form (word.now ∷ []) → ⊥) (λ command. IsForm (form_of command) (word.now ∷ [])) }
{
    if word == "--help" {
        return Some(Command::Help);
    }
    if word == "--version" {
        return Some(Command::Version);
    }
    None
}

/// The command of two words.
fn command_of_one<'a>(word: &'a str, sys: &'a str) -> Option<Command<'a>>
    ensures { MatchOption result ((form : Form) → IsForm form (word.now ∷ sys.now ∷ []) → ⊥) (λ command. IsForm (form_of command) (word.now ∷ sys.now ∷ [])) }
{
    if word == "show-image" && is_operand(sys) {
        return Some(Command::ShowImage { sys });
    }
    None
}

/// The command of three words.
fn command_of_two<'a>(word: &'a str, first: &'a str, second: &'a str) -> Option<Command<'a>>
    ensures { MatchOption result ((form : Form) → IsForm form (word.now ∷ first.now ∷ second.now ∷ []) → ⊥) (λ command. IsForm (form_of command) (word.now ∷ first.now ∷ second.now ∷ [])) }
{
    if !is_operand(first) || !is_operand(second) {
        return None;
    }
    if word == "run0" {
        return Some(Command::RunZero {
            sys: first,
            log: second,
        });
    }
    if word == "show-inf" {
        return Some(Command::ShowInf {
            inf: first,
            id: second,
        });
    }
    None
}

/// The command of four words.
fn command_of_three<'a>(
    word: &'a str,
    kind: &'a str,
    sys: &'a str,
    inf: &'a str,
) -> Option<Command<'a>>
    ensures { MatchOption result ((form : Form) → IsForm form (word.now ∷ kind.now ∷ sys.now ∷ inf.now ∷ []) → ⊥) (λ command. IsForm (form_of command) (word.now ∷ kind.now ∷ sys.now ∷ inf.now ∷ [])) }
{
    if word != "forge" || !is_operand(sys) || !is_operand(inf) {
        return None;
    }
    let kind = kind_named(kind)?;
    Some(Command::Forge { kind, sys, inf })
}

/// The command whose form the words have, if they have one.
pub fn command_of(words: &[String]) -> Option<Command<'_>>
    ensures { MatchOption result ((form : Form) → IsForm form (map string_bytes words.now) → ⊥) (λ command. IsForm (form_of command) (map string_bytes words.now)) }
{
    match words {
        [word] => command_alone(word.as_str()),
        [word, operand] => command_of_one(word.as_str(), operand.as_str()),
        [word, first, second] => command_of_two(word.as_str(), first.as_str(), second.as_str()),
        [word, kind, sys, inf] => command_of_three(
            word.as_str(),
            kind.as_str(),
            sys.as_str(),
            inf.as_str(),
        ),
        _ => None,
    }
}
