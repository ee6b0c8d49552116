//! Tables of rows that are found by a key.

ghost use Rattle.std.specs.Prelude.{◌≡◌, ◌<◌, ℕ, List, false, true, map, length, slice_index_or, Some, IfSome, MatchOption, ◌↔◌};
ghost use Rattle.std.specs.List.{Contains, HoldsAt};
ghost use Rattle.std.specs.Option.{option_copied};
ghost use Rattle.std.specs.Ordering.{nat_cmp};
ghost use Rattle.std.specs.Cmp.Lexicographic.{slice_cmp};
ghost use Rattle.nd_base.specs.Rows.{is_below, keys_rise, Rise};

use std::cmp::Ordering;
use std::marker::Model;

/// What has a key: a string of bytes.
pub trait Keyed {
    ghost key: { Self → List ℕ };

    /// The key.
    fn key(&self) -> &[u8]
        ensures { result.now ≡ key self.now };
}

/// A table of rows whose keys rise strictly, in the order of dictionaries. It is seen as the list of
/// its rows.
#[derive(Drop)]
pub struct Rows<'t, R: Keyed, const N: usize> {
    rows: &'t [R],
}

impl<'t, R: Keyed, const N: usize> Model for Rows<'t, R, N> {
    ghost use Rattle.std.specs.Prelude.{◌≡◌, List, true, map};
    ghost use Rattle.nd_base.specs.Rows.{keys_rise};

    ghost Value = { List R };

    ghost view = { λ t. t.rows.now };

    ghost invariant = { λ t. keys_rise (map R.key t.rows.now) ≡ true };
}

/// Whether each row's key is below the next one's.
fn keys_rise<R: Keyed>(rows: &[R]) -> bool
    ensures { result ≡ keys_rise (map R.key rows.now) }
{
    rows.is_sorted_by(
        |row: &R, next: &R| -> bool
            ensures { result ≡ is_below (R.key row.now) (R.key next.now) }
        { row.key().cmp(next.key()).is_lt() },
    )
}

/// The place of the row of a key, in a table whose keys rise strictly.
fn place_of<R: Keyed>(rows: &[R], key: &[u8]) -> Option<usize>
    ensures found { IfSome result (λ place. place < length rows.now × HoldsAt (λ row. R.key row ≡ key.now) rows.now place) }
    ensures only { keys_rise (map R.key rows.now) ≡ true → (place : ℕ) (row : R) → place < length rows.now → R.key (slice_index_or rows.now place row) ≡ key.now → result ≡ Some place }
{
    rows.binary_search_by(
        |row: &R| -> Ordering
            ensures { result ≡ slice_cmp nat_cmp (R.key row.now) key.entry.now }
        { row.key().cmp(key) },
    )
    .ok()
}

impl<'t, R: Keyed, const N: usize> Rows<'t, R, N> {
    /// The table of some rows: none exactly where their keys do not rise strictly.
    pub fn of(rows: &'t [R; N]) -> Option<Rows<'t, R, N>>
        ensures { MatchOption result (keys_rise (map R.key rows.now) ≡ false) (λ table. (table ≡ rows.now) × (keys_rise (map R.key rows.now) ≡ true)) }
    {
        if !keys_rise(rows) {
            return None;
        }
        Some(Rows { rows })
    }

    /// The table of rows whose keys are known to rise strictly.
    pub fn of_rising(rows: &'t [R; N]) -> Rows<'t, R, N>
        requires { keys_rise (map R.key rows.now) ≡ true }
        ensures { result ≡ rows.now }
    {
        Rows { rows }
    }

    /// The one row of a key: none exactly where no row has it.
    pub fn find(&self, key: &[u8]) -> Option<&R>
        ensures found { IfSome result (λ row. Contains self.now row.now × (R.key row.now ≡ key.now)) }
        ensures only { (row : R) → Contains self.now row → R.key row ≡ key.now → option_copied result ≡ Some row }
    {
        let rows = self.rows;
        let place = place_of(rows, key)?;
        Some(&rows[place])
    }
}

/// Where each key is below the next, each is below all behind it, and the other way round.
pub fn rising_keys_rise_throughout()
    ensures { (keys : List (List ℕ)) → (keys_rise keys ≡ true) ↔ Rise keys }
{}
