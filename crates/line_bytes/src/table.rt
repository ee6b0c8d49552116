//! Names with numbers, each name once, in the order in which they were met.

ghost use Rattle.std.specs.Prelude.{◌≡◌, [], length, OnOk};
ghost use Rattle.std.specs.List.{slice_get};
ghost use Rattle.std.specs.Map.{keys_of};
ghost use Rattle.std.specs.Option.{option_map};
ghost use Rattle.line_bytes.specs.Tables.{row_of, with_row};

use indexmap::IndexMap;
use nd_base::OutOfMemory;
use std::alloc::Global;
use std::marker::Model;

/// Names with numbers: labels with their addresses, or imports with their places.
#[derive(Drop)]
pub struct Table {
    numbers: IndexMap<Vec<u8>, u32>,
}

impl Model for Table {
    ghost use Rattle.std.specs.Prelude.{List, ℕ};

    ghost Value = { List (List ℕ × ℕ) };

    ghost use Rattle.line_bytes.specs.TableRows.{rows_in};

    ghost view = { λ t. rows_in t.numbers.entries };
}

impl Table {
    /// No names.
    pub fn new(alloc: Global) -> Table
        ensures { result ≡ [] }
    {
        Table {
            numbers: IndexMap::new(alloc),
        }
    }

    /// How many names there are.
    pub fn len(&self) -> usize
        ensures { result ≡ length self.now }
    {
        self.numbers.len()
    }

    /// Adds a name with a number; one that is there keeps its own.
    pub fn add(&mut self, alloc: Global, name: &[u8], number: u32) -> Result<(), OutOfMemory>
        ensures { OnOk result (self.new ≡ with_row self.old name.now number) }
    {
        if self.numbers.get_index_of(name).is_some() {
            return Ok(());
        }
        let key = Vec::from_slice(alloc, name)?;
        self.numbers.insert(key, number)?;
        Ok(())
    }

    /// The place and the number of a name. This takes no memory.
    pub fn find(&self, name: &[u8]) -> Option<(usize, u32)>
        ensures { result ≡ row_of self.now name.now }
    {
        match self.numbers.get_full(name) {
            Some((place, _, number)) => Some((place, *number)),
            None => None,
        }
    }

    /// The name at a place.
    pub fn name(&self, place: usize) -> Option<&[u8]>
        ensures { option_map (λ name. name.now) result ≡ slice_get (keys_of self.now) place }
    {
        match self.numbers.get_index(place) {
            Some((name, _)) => Some(name.as_slice()),
            None => None,
        }
    }
}
