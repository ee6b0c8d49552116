//! The rows that an install section leads to, and the first line that lacks a string.

ghost use Rattle.std.specs.Prelude.{◌≡◌, ◌++◌, [], map, IfOk, OnOk};
ghost use Rattle.std.specs.Option.{option_copied};
ghost use Rattle.inf_file.specs.Keyed.{string_in};
ghost use Rattle.inf_text.specs.Sections.{place_named};
ghost use Rattle.inf_file.specs.Strings.{replaced, line_lacks};
ghost use Rattle.inf_file.specs.Earliest.{earliest};
ghost use Rattle.inf_file.specs.Repeats.{thinned};
ghost use Rattle.inf_file.specs.Parameters.{named_places, reg_places, lines_of_all};

use crate::lines::earlier_if;
use crate::repeats::{lines_thinned, push_place};
use crate::source::Source;
use inf_text::{Line, Name};
use nd_base::{OutOfMemory, Wide};
use std::alloc::Global;

/// The place of the section that a value names.
fn named_place(source: &Source, value: &Wide) -> Result<Option<usize>, OutOfMemory>
    ensures { IfOk result (λ place. place ≡ place_named (replaced (string_in source.now.strings.now) value.now) source.now.inf.now) }
{
    let name = source.strings.replaced(source.alloc, value.as_slice())?;
    Ok(source.inf.place(&Name::new(name)))
}

/// Puts the places of the sections that values name behind the last one.
#[tactic(auto, using(crate::proofs::ListLemmas::nothing_behind), unfolding(crate::specs::Parameters::named_places))]
fn add_places(source: &Source, places: &mut Vec<usize>, values: &[Wide]) -> Result<(), OutOfMemory>
    ensures { OnOk result (places.new.items ≡ places.old.items ++ named_places (string_in source.now.strings.now) source.now.inf.now values.now) }
{
    for value in values {
        let place = named_place(source, value)?;
        push_place(places, place)?;
    }
    Ok(())
}

/// The places of the add-registry sections that directives name, in order.
#[tactic(auto, unfolding(crate::specs::Parameters::named_places))]
fn reg_places(source: &Source, directives: &[&Line]) -> Result<Vec<usize>, OutOfMemory>
    ensures { IfOk result (λ v. v.items ≡ reg_places (string_in source.now.strings.now) source.now.inf.now (map (λ l. l.now) directives.now)) }
{
    let mut places = Vec::new(source.alloc);
    for directive in directives {
        add_places(source, &mut places, directive.values())?;
    }
    Ok(places)
}

/// The rows of the sections that directives name, without those that say nothing new.
pub fn rows_named<'a>(
    source: &Source<'a>,
    directives: &[&Line],
) -> Result<Vec<&'a Line>, OutOfMemory>
    ensures { IfOk result (λ v. map (λ l. l.now) v.items ≡ lines_of_all source.now.inf.now (thinned (reg_places (string_in source.now.strings.now) source.now.inf.now (map (λ l. l.now) directives.now)))) }
{
    let places = reg_places(source, directives)?;
    lines_thinned(source, places.as_slice())
}

/// The first line of the file among those that lack a string.
#[tactic(auto, unfolding(crate::specs::Earliest::earliest))]
pub fn first_lacking<'a>(
    source: &Source,
    lines: &[&'a Line],
) -> Result<Option<&'a Line>, OutOfMemory>
    ensures { IfOk result (λ l. option_copied l ≡ earliest (line_lacks (string_in source.now.strings.now)) (map (λ l. l.now) lines.now)) }
{
    let mut best: Option<&Line> = None;
    for line in lines {
        best = earlier_if(source.strings.line_lacks(source.alloc, line)?, best, line);
    }
    Ok(best)
}
