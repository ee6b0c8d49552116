//! The lines of sections.

ghost use Rattle.std.specs.Prelude.{◌≡◌};
ghost use Rattle.std.specs.Option.{option_copied};

use crate::name::is_word;
use nd_base::Wide;
use std::marker::Model;

/// A line: its number in the file, what stands before `=`, and the values.
#[derive(Debug, Drop)]
pub struct Line {
    pub(crate) number: u32,
    pub(crate) key: Option<Wide>,
    pub(crate) values: Vec<Wide>,
}

impl Model for Line {
    ghost use Rattle.inf_text.specs.Sections.{Line as InfLine};

    ghost Value = { InfLine };

    ghost view = { λ l. record { number = l.number; key = l.key; values = l.values.items } };
}

impl Line {
    ghost use Rattle.inf_text.specs.Sections.{has_key, value_at};

    /// The number of the line in the file, from 1.
    pub fn number(&self) -> u32
        ensures { result ≡ self.now.number }
    {
        self.number
    }

    /// What stands before `=`.
    pub fn key(&self) -> Option<&[u16]>
        ensures { option_copied result ≡ self.now.key }
    {
        match &self.key {
            Some(key) => Some(key.as_slice()),
            None => None,
        }
    }

    /// The values.
    pub fn values(&self) -> &[Wide]
        ensures { result.now ≡ self.now.values }
    {
        self.values.as_slice()
    }

    /// Whether the line has a key.
    #[tactic(auto, unfolding(crate::specs::Sections::has_key))]
    pub fn has_key(&self, key: &[u8]) -> bool
        ensures { result ≡ has_key key.now self.now }
    {
        match self.key() {
            Some(own) => is_word(own, key),
            None => false,
        }
    }

    /// A value, from 0, empty where there is none.
    #[tactic(auto, unfolding(crate::specs::Sections::value_at))]
    pub fn value_at(&self, n: usize) -> &[u16]
        ensures { result.now ≡ value_at n self.now }
    {
        match self.values.get(n) {
            Some(value) => value.as_slice(),
            None => &[],
        }
    }
}
