//! Names as tables hold them: eight bytes, with blanks behind the name.

ghost use Rattle.std.specs.Prelude.{◌≡◌};
ghost use Rattle.asm_lines.specs.Names.{is_named};

/// Whether a word is the name that stands in front of blanks.
#[tactic(auto, unfolding(crate::specs::Names::is_named))]
pub fn is_named(name: &[u8], word: &[u8]) -> bool
    ensures { result ≡ is_named name.now word.now }
{
    let mut letters = name;
    let mut rest = word;
    while let Some((letter, others)) = letters.split_first() {
        let Some((byte, behind)) = rest.split_first() else {
            return *letter == b' ';
        };
        if letter != byte {
            return false;
        }
        letters = others;
        rest = behind;
    }
    rest.is_empty()
}
