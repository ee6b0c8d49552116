//! What holds of the sections that a file gives.

ghost use Rattle.std.specs.Prelude.{ℕ, List, ◌≤◌, ◌≡◌, [], ◌↔◌, true, drop, None, Ok, length, map};
ghost use Rattle.std.specs.List.{IsDistinct};
ghost use Rattle.inf_text.specs.Names.{is_same};
ghost use Rattle.inf_text.specs.Sections.{Section as InfSection};
ghost use Rattle.inf_text.specs.Characters.{characters, has_mark, bad_byte, IsUtf16};
ghost use Rattle.inf_text.specs.Reading.{collected, pieces_said, gathered, sections_of};
ghost use Rattle.inf_text.specs.Layout.{Layout as LineLayout, laid_out, IsTextOf, AreLaidOut};
ghost use Rattle.inf_text.specs.declared.statement.Statement.{Statement as Said};

/// No two sections of an INF file have one name.
#[tactic(auto, using(crate::proofs::SectionLaws::sections_apart))]
pub fn each_section_comes_once()
    ensures { (bytes : List ℕ) (ss : List InfSection) → sections_of bytes ≡ Ok ss → IsDistinct is_same (map (λ s. s.name) ss) }
{}

/// An INF file says what its lines were written to say, whatever layout each line has: blanks around
/// names, keys and values, quotes around them or words without quotes, comments, carriage returns in
/// front of line feeds, lines that say nothing, and backslashes that break a line anywhere. In quotes
/// stands any text without a line feed. The last line feed may be missing, and a line has the number
/// of its first line in the file.
pub fn laid_out_is_read()
    ensures { (ws : List (LineLayout × Said)) (bytes text : List ℕ) → AreLaidOut 1 ws → length bytes ≤ 1048576 → characters bytes ≡ Ok text → IsTextOf (laid_out ws) text → sections_of bytes ≡ collected (map (λ w. w.1) ws) }
{}

/// A section may stand in several pieces: it has the lines of each, in the order of the file.
#[tactic(auto, using(crate::proofs::SectionLaws::pieces_are_gathered))]
pub fn pieces_are_gathered()
    ensures { (pieces : List InfSection) → collected (pieces_said pieces) ≡ Ok (gathered [] pieces) }
{}

/// Bytes behind the byte order mark are text exactly where they are UTF-16: whole units, of which
/// none is zero and no surrogate stands without its partner.
#[tactic(auto, using(crate::proofs::CharacterLaws::utf16_is_text))]
pub fn utf16_is_text()
    ensures { (bytes : List ℕ) → has_mark bytes ≡ true → (bad_byte bytes ≡ None) ↔ IsUtf16 (drop 2 bytes) }
{}
