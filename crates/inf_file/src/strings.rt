//! The strings of an INF file, and their replacement.

ghost use Rattle.std.specs.Prelude.{◌≡◌, ◌<◌, ◌≤◌, ◌++◌, ◌∷◌, [], length, MatchOption, IfOk, IfSome, OnOk};
ghost use Rattle.std.specs.List.{slice_split, list_any, list_all};
ghost use Rattle.std.specs.Option.{option_copied};
ghost use Rattle.inf_file.specs.Keyed.{string_in, or_string};
ghost use Rattle.inf_file.specs.Strings.{with_string, strings_of, is_percent, is_digit, meaning, replaced, is_missing, lacks_string, key_lacks, line_lacks};
ghost use Rattle.inf_text.specs.Sections.{value_at};

use indexmap::IndexMap;
use inf_text::{Line, Name, part_at};
use nd_base::{OutOfMemory, Wide};
use std::alloc::Global;
use std::marker::Model;

pub const PERCENT: u16 = 37;

/// The strings under their keys.
#[derive(Drop)]
pub struct Strings {
    table: IndexMap<Name, Wide>,
}

impl Model for Strings {
    ghost use Rattle.std.specs.Prelude.{ℕ, List};

    ghost Value = { List (List ℕ × List ℕ) };

    ghost view = { λ s. s.table.entries };
}

/// Whether a key is decimal digits alone.
fn is_number(key: &[u16]) -> bool
    ensures { result ≡ list_all is_digit key.now }
{
    key.iter().all(|unit| (48..58).contains(unit))
}

/// What stands before the first two percent signs, between them and behind them.
pub fn next_key(text: &[u16]) -> Option<(&[u16], &[u16], &[u16])>
    ensures cases { MatchOption result (length (slice_split is_percent text.now) ≤ 2) (λ x. slice_split is_percent text.now ≡ x.0.now ∷ (x.1.now ∷ slice_split is_percent x.2.now)) }
    ensures shorter { IfSome result (λ x. length x.2.now < length text.now) }
{
    let (plain, rest) = part_at(PERCENT, text)?;
    let (key, behind) = part_at(PERCENT, rest)?;
    Some((plain, key, behind))
}

/// Puts a key with its percent signs behind a text.
fn put_itself(out: &mut Wide, key: &[u16]) -> Result<(), OutOfMemory>
    ensures { OnOk result (out.new ≡ out.old ++ (37 ∷ (key.now ++ 37 ∷ []))) }
{
    out.push(PERCENT)?;
    out.extend_from_slice(key)?;
    out.push(PERCENT)
}

impl Strings {
    /// The strings of the lines of `[Strings]`.
    #[tactic(auto, using(crate::proofs::StringLaws::no_strings_in), unfolding(crate::specs::Strings::strings_of))]
    pub fn of(alloc: Global, lines: &[Line]) -> Result<Strings, OutOfMemory>
        ensures { IfOk result (λ s. string_in s ≡ strings_of lines.now) }
    {
        let mut strings = Strings {
            table: IndexMap::new(alloc),
        };
        for line in lines {
            strings.add(alloc, line)?;
        }
        Ok(strings)
    }

    fn add(&mut self, alloc: Global, line: &Line) -> Result<(), OutOfMemory>
        ensures { OnOk result (string_in self.new ≡ with_string (string_in self.old) line.now) }
    {
        match line.key() {
            Some(key) => self.add_string(alloc, key, line.value_at(0)),
            None => Ok(()),
        }
    }

    /// Adds the string of a key, where the key is new.
    #[tactic(auto, using(crate::proofs::StringLaws::or_string_old, crate::proofs::StringLaws::or_string_new))]
    fn add_string(&mut self, alloc: Global, key: &[u16], text: &[u16]) -> Result<(), OutOfMemory>
        ensures { OnOk result (string_in self.new ≡ or_string (string_in self.old) key.now text.now) }
    {
        let name = Name::new(Wide::copy(alloc, key)?);
        if self.table.contains_key(&name) {
            return Ok(());
        }
        let text = Wide::copy(alloc, text)?;
        self.table.insert(name, text)?;
        Ok(())
    }

    /// The string of a key.
    #[tactic(auto, unfolding(crate::specs::Keyed::string_in))]
    fn get(&self, alloc: Global, key: &[u16]) -> Result<Option<&Wide>, OutOfMemory>
        ensures { IfOk result (λ o. option_copied o ≡ string_in self.now key.now) }
    {
        let name = Name::new(Wide::copy(alloc, key)?);
        Ok(self.table.get(&name))
    }

    /// Puts what stands for a key behind a text.
    #[tactic(auto, unfolding(crate::specs::Strings::meaning))]
    fn put_meaning(&self, alloc: Global, out: &mut Wide, key: &[u16]) -> Result<(), OutOfMemory>
        ensures { OnOk result (out.new ≡ out.old ++ meaning (string_in self.now) key.now) }
    {
        if key.is_empty() {
            return out.push(PERCENT);
        }
        match self.get(alloc, key)? {
            Some(text) => out.extend_from_slice(text.as_slice()),
            None => put_itself(out, key),
        }
    }

    /// A text with its keys replaced.
    #[tactic(auto, using(crate::proofs::StringLaws::replaced_more, crate::proofs::StringLaws::replaced_end))]
    pub fn replaced(&self, alloc: Global, text: &[u16]) -> Result<Wide, OutOfMemory>
        ensures { IfOk result (λ out. out ≡ replaced (string_in self.now) text.now) }
    {
        let mut out = Wide::new(alloc);
        let mut rest = text;
        while let Some((plain, key, behind)) = next_key(rest) {
            out.extend_from_slice(plain)?;
            self.put_meaning(alloc, &mut out, key)?;
            rest = behind;
        }
        out.extend_from_slice(rest)?;
        Ok(out)
    }

    /// A value of a line, from 0, with its keys replaced.
    pub fn value(&self, alloc: Global, line: &Line, n: usize) -> Result<Wide, OutOfMemory>
        ensures { IfOk result (λ out. out ≡ replaced (string_in self.now) (value_at n line.now)) }
    {
        self.replaced(alloc, line.value_at(n))
    }

    /// Whether a key has no string and is no number.
    #[tactic(auto, unfolding(crate::specs::Strings::is_missing))]
    fn is_missing(&self, alloc: Global, key: &[u16]) -> Result<bool, OutOfMemory>
        ensures { IfOk result (λ b. b ≡ is_missing (string_in self.now) key.now) }
    {
        if key.is_empty() || is_number(key) {
            return Ok(false);
        }
        Ok(self.get(alloc, key)?.is_none())
    }

    /// Whether a text lacks a string.
    #[tactic(auto, using(crate::proofs::StringLaws::lacks_more, crate::proofs::StringLaws::lacks_found, crate::proofs::StringLaws::lacks_last))]
    fn lacks_string(&self, alloc: Global, text: &[u16]) -> Result<bool, OutOfMemory>
        ensures { IfOk result (λ b. b ≡ lacks_string (string_in self.now) text.now) }
    {
        let mut rest = text;
        while let Some((_plain, key, behind)) = next_key(rest) {
            if self.is_missing(alloc, key)? {
                return Ok(true);
            }
            rest = behind;
        }
        Ok(false)
    }

    /// Whether one of the values lacks a string.
    fn values_lack(&self, alloc: Global, values: &[Wide]) -> Result<bool, OutOfMemory>
        ensures { IfOk result (λ b. b ≡ list_any (lacks_string (string_in self.now)) values.now) }
    {
        for value in values {
            if self.lacks_string(alloc, value.as_slice())? {
                return Ok(true);
            }
        }
        Ok(false)
    }

    fn key_lacks(&self, alloc: Global, line: &Line) -> Result<bool, OutOfMemory>
        ensures { IfOk result (λ b. b ≡ key_lacks (string_in self.now) line.now.key) }
    {
        match line.key() {
            Some(key) => self.lacks_string(alloc, key),
            None => Ok(false),
        }
    }

    /// Whether a line lacks a string.
    #[tactic(auto, unfolding(crate::specs::Strings::line_lacks))]
    pub fn line_lacks(&self, alloc: Global, line: &Line) -> Result<bool, OutOfMemory>
        ensures { IfOk result (λ b. b ≡ line_lacks (string_in self.now) line.now) }
    {
        if self.key_lacks(alloc, line)? {
            return Ok(true);
        }
        self.values_lack(alloc, line.values())
    }
}
