//! Laws that the proofs of other crates call for. Each does nothing.

ghost use Rattle.std.specs.Prelude.{◌≡◌, ◌≢◌, ◌≤◌, ◌-◌, ◌^◌, ℕ, false, List, [], Option, Some, IsTrue};
ghost use Rattle.std.specs.FinMap.{insert};
ghost use Rattle.std.specs.Fmt.{padded_integral, format_spec, digits};
ghost use Rattle.nd_base.specs.Files.{Kept, bytes_at, Rose, OnlyReads, OnlyWrites};
ghost use Rattle.nd_base.specs.Text.{hex_word, hex_unit, hex_byte};

use crate::named_files::Files;

/// Calls in a row that only look at the files only look at them; what may be read and written
/// stays, and what is told.
pub fn looks_add_up<F: Files>()
    ensures in_a_row { (old mid new : F) → OnlyReads F.kept F.read_faults F.write_faults F.may_read F.may_write old mid → OnlyReads F.kept F.read_faults F.write_faults F.may_read F.may_write mid new → OnlyReads F.kept F.read_faults F.write_faults F.may_read F.may_write old new }
    ensures readable { (old new : F) (name : List ℕ) → OnlyReads F.kept F.read_faults F.write_faults F.may_read F.may_write old new → IsTrue (F.may_read old name) → IsTrue (F.may_read new name) }
    ensures writable { (old new : F) (name : List ℕ) → OnlyReads F.kept F.read_faults F.write_faults F.may_read F.may_write old new → IsTrue (F.may_write old name) → IsTrue (F.may_write new name) }
    ensures told { (old new : F) (files : Option Kept) → OnlyReads F.kept F.read_faults F.write_faults F.may_read F.may_write old new → F.kept old ≡ files → F.kept new ≡ files }
{}

/// Calls in a row that write a file change beside the files what one of them may change; what may
/// be read and written stays.
pub fn writes_add_up<F: Files>()
    ensures in_a_row { (old mid new : F) → OnlyWrites F.read_faults F.write_faults F.may_read F.may_write old mid → OnlyWrites F.read_faults F.write_faults F.may_read F.may_write mid new → OnlyWrites F.read_faults F.write_faults F.may_read F.may_write old new }
    ensures readable { (old new : F) (name : List ℕ) → OnlyWrites F.read_faults F.write_faults F.may_read F.may_write old new → IsTrue (F.may_read old name) → IsTrue (F.may_read new name) }
    ensures writable { (old new : F) (name : List ℕ) → OnlyWrites F.read_faults F.write_faults F.may_read F.may_write old new → IsTrue (F.may_write old name) → IsTrue (F.may_write new name) }
{}

/// A count that rose from a later value rose from an earlier one, and has risen later too.
pub fn risen_counts_stay_risen()
    ensures earlier { (first before now : ℕ) → first ≤ before → Rose before now → Rose first now }
    ensures later { (before mid now : ℕ) → before ≤ mid → mid ≤ now → Rose before mid → Rose before now }
{}

/// A file that is set has those bytes, no other name's bytes change, and of two settings of one
/// name the last counts.
pub fn set_files_are_kept()
    ensures set { (files : Kept) (name bytes : List ℕ) → bytes_at (insert files name bytes) name ≡ bytes }
    ensures others { (files : Kept) (name other bytes : List ℕ) → other ≢ name → bytes_at (insert files name bytes) other ≡ bytes_at files other }
    ensures last { (files : Kept) (name first last : List ℕ) → insert (insert files name first) name last ≡ insert files name last }
{}

/// What `{:08x}`, `{:04x}` and `{:02x}` write of a number: its hexadecimal digits, with zeros in
/// front of them up to the width.
pub fn hex_digits_are_padded()
    ensures word { (n : ℕ) → padded_integral (format_spec 32 0 4 8 (2 ^ 64 - 1)) false [] (digits 16 false n) ≡ hex_word n }
    ensures unit { (n : ℕ) → padded_integral (format_spec 32 0 4 4 (2 ^ 64 - 1)) false [] (digits 16 false n) ≡ hex_unit n }
    ensures byte { (n : ℕ) → padded_integral (format_spec 32 0 4 2 (2 ^ 64 - 1)) false [] (digits 16 false n) ≡ hex_byte n }
{}
