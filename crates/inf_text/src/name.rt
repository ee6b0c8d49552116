//! Names, which are compared without regard to the case of ASCII letters.

ghost use Rattle.std.specs.Prelude.{◌≡◌, fold};
ghost use Rattle.std.specs.Cmp.{partial_equiv_from_equiv};
ghost use Rattle.inf_text.specs.Names.{without_case, is_same, same_laws, name_fed, same_fed};

use nd_base::{OutOfMemory, Wide};
use std::alloc::Global;
use std::hash::{Hash, Hasher};
use std::marker::Model;

/// ASCII capitals as small letters.
fn without_case(unit: u16) -> u16
    ensures { result ≡ without_case unit }
{
    if unit >= 65 && unit <= 90 {
        unit + 32
    } else {
        unit
    }
}

/// Whether two texts are equal without ASCII case.
#[tactic(auto, using(crate::proofs::Loops::same_all, crate::proofs::Loops::same_unit, crate::proofs::Loops::same_length))]
pub fn is_same(a: &[u16], b: &[u16]) -> bool
    ensures { result ≡ is_same a.now b.now }
{
    if a.len() != b.len() {
        return false;
    }
    for (i, unit) in a.iter().enumerate() {
        if without_case(*unit) != without_case(b[i]) {
            return false;
        }
    }
    true
}

/// Whether a text is an ASCII word, without ASCII case.
#[tactic(auto, using(crate::proofs::Loops::same_all, crate::proofs::Loops::same_unit, crate::proofs::Loops::same_length))]
pub fn is_word(text: &[u16], word: &[u8]) -> bool
    ensures { result ≡ is_same word.now text.now }
{
    if word.len() != text.len() {
        return false;
    }
    for (i, byte) in word.iter().enumerate() {
        if without_case(u16::from(*byte)) != without_case(text[i]) {
            return false;
        }
    }
    true
}

/// A name as it is spelled. Names that differ in ASCII case alone are equal.
#[derive(Debug, Drop)]
pub struct Name {
    text: Wide,
}

impl Model for Name {
    ghost use Rattle.std.specs.Prelude.{List, ℕ};

    ghost Value = { List ℕ };

    ghost view = { λ n. n.text };
}

impl Name {
    /// The name of this spelling.
    pub fn new(text: Wide) -> Name
        ensures { result ≡ text }
    {
        Name { text }
    }

    /// The spelling.
    pub fn as_slice(&self) -> &[u16]
        ensures { result.now ≡ self.now }
    {
        self.text.as_slice()
    }

    /// The spelling.
    pub fn into_text(self) -> Wide
        ensures { result ≡ self }
    {
        let Name { text } = self;
        text
    }
}

impl PartialEq for Name {
    ghost eq = { is_same };

    ghost laws = { partial_equiv_from_equiv same_laws };

    fn eq(&self, other: &Name) -> bool {
        is_same(self.as_slice(), other.as_slice())
    }
}

impl Eq for Name {
    ghost laws = { same_laws };
}

/// Feeds a hasher the units of a name in small letters.
#[tactic(auto, unfolding(crate::specs::Names::folded))]
fn feed<H: Hasher>(units: &[u16], state: &mut H)
    ensures { state.new ≡ fold H.write state.old (name_fed units.now) }
{
    state.write_usize(units.len());
    for unit in units {
        state.write_u16(without_case(*unit));
    }
}

impl Hash for Name {
    ghost hash_input = { name_fed };

    ghost respects_eq = { same_fed };

    fn hash<H: Hasher>(&self, state: &mut H) {
        feed(self.as_slice(), state);
    }
}
