//! Sections that are read more than once.

ghost use Rattle.std.specs.Prelude.{◌≡◌, map, [], reverse, ◌++◌, IfOk, OnOk};
ghost use Rattle.std.specs.List.{cons_option};
ghost use Rattle.inf_file.specs.Parameters.{lines_of_all};
ghost use Rattle.inf_file.specs.Repeats.{once, thinned};

use crate::lines::lines_of_all;
use crate::source::Source;
use indexmap::IndexSet;
use inf_text::Line;
use nd_base::OutOfMemory;
use std::alloc::Global;

/// Puts a place behind the last one, if there is one.
pub fn push_place(places: &mut Vec<usize>, place: Option<usize>) -> Result<(), OutOfMemory>
    ensures { OnOk result (places.new.items ≡ places.old.items ++ cons_option place []) }
{
    match place {
        Some(place) => {
            places.push(place)?;
            Ok(())
        }
        None => Ok(()),
    }
}

/// Each place once, where it stands first.
fn once_set(alloc: Global, places: &[usize]) -> Result<IndexSet<usize>, OutOfMemory>
    ensures { IfOk result (λ s. s.keys ≡ once places.now) }
{
    let mut seen = IndexSet::new(alloc);
    for place in places {
        seen.insert(*place)?;
    }
    Ok(seen)
}

/// The same in a row.
fn once(alloc: Global, places: &[usize]) -> Result<Vec<usize>, OutOfMemory>
    ensures { IfOk result (λ v. v.items ≡ once places.now) }
{
    let seen = once_set(alloc, places)?;
    let mut found = Vec::new(alloc);
    for place in seen {
        found.push(place)?;
    }
    Ok(found)
}

/// Each place once, where it stands last.
fn once_last(alloc: Global, places: &[usize]) -> Result<Vec<usize>, OutOfMemory>
    ensures { IfOk result (λ v. v.items ≡ reverse (once (reverse places.now))) }
{
    let mut back = Vec::from_slice(alloc, places)?;
    back.reverse();
    let mut found = once(alloc, back.as_slice())?;
    found.reverse();
    Ok(found)
}

/// The places, and where some come again each as it stands first, and behind them each as it stands
/// last: what is read between says nothing new.
fn thinned(alloc: Global, places: &[usize]) -> Result<Vec<usize>, OutOfMemory>
    ensures { IfOk result (λ v. v.items ≡ thinned places.now) }
{
    let mut found = once(alloc, places)?;
    if found.len() == places.len() {
        found.clear();
        found.extend_from_slice(places)?;
    } else {
        let last = once_last(alloc, places)?;
        found.extend_from_slice(last.as_slice())?;
    }
    Ok(found)
}

/// The lines of the sections at these places, without those that say nothing new.
pub fn lines_thinned<'a>(
    source: &Source<'a>,
    places: &[usize],
) -> Result<Vec<&'a Line>, OutOfMemory>
    ensures { IfOk result (λ v. map (λ l. l.now) v.items ≡ lines_of_all source.now.inf.now (thinned places.now)) }
{
    let places = thinned(source.alloc, places)?;
    lines_of_all(source, places.as_slice())
}
