//! How a hardware id leads to an install section.

ghost use Rattle.std.specs.Prelude.{codes, ◌≡◌, [], map, drop, take, length, None, IfOk};
ghost use Rattle.std.specs.List.{filter_map};
ghost use Rattle.std.specs.Option.{option_copied};
ghost use Rattle.inf_file.specs.Keyed.{string_in};
ghost use Rattle.inf_text.specs.Names.{is_same};
ghost use Rattle.inf_text.specs.Sections.{has_key, value_at, place_named};
ghost use Rattle.inf_file.specs.Strings.{replaced};
ghost use Rattle.inf_file.specs.Earliest.{earliest};
ghost use Rattle.inf_file.specs.Models.{is_good_signature, is_signed_by, is_signed, dotted, usual_names, first_place, is_nt_x86, decoration_place, decorated_place, models_place, has_id, model_of, install_place};

use crate::lines::earlier_if;
use crate::repeats::{lines_thinned, push_place};
use crate::source::Source;
use inf_text::{Line, Name, is_same, is_word};
use nd_base::{OutOfMemory, Wide};
use std::alloc::Global;

pub const DOT: u16 = 46;

#[tactic(auto, unfolding(crate::specs::Models::is_good_signature))]
fn is_good_signature(text: &[u16]) -> bool
    ensures { result ≡ is_good_signature text.now }
{
    is_word(text, b"$Windows NT$") || is_word(text, b"$Chicago$") || is_word(text, b"$Windows 95$")
}

#[tactic(auto, unfolding(crate::specs::Models::is_signed_by))]
fn is_signed_by(line: &Line) -> bool
    ensures { result ≡ is_signed_by line.now }
{
    line.has_key(b"Signature") && is_good_signature(line.value_at(0))
}

/// Whether a line of `[Version]` has a signature of Windows.
#[tactic(auto, unfolding(crate::specs::Models::is_signed))]
pub fn is_signed(lines: &[Line]) -> bool
    ensures { result ≡ is_signed lines.now }
{
    lines.iter().any(|line| is_signed_by(line))
}

/// A section's name with a decoration.
#[tactic(auto, unfolding(crate::specs::Models::dotted))]
fn dotted(alloc: Global, name: &[u16], decoration: &[u16]) -> Result<Wide, OutOfMemory>
    ensures { IfOk result (λ text. text ≡ dotted name.now decoration.now) }
{
    let mut text = Wide::copy(alloc, name)?;
    text.push(DOT)?;
    text.extend_from_slice(decoration)?;
    Ok(text)
}

/// The place of the section of a name with a decoration.
fn decorated_section(
    source: &Source,
    name: &[u16],
    decoration: &[u16],
) -> Result<Option<usize>, OutOfMemory>
    ensures { IfOk result (λ place. place ≡ place_named (dotted name.now decoration.now) source.now.inf.now) }
{
    let text = dotted(source.alloc, name, decoration)?;
    Ok(source.inf.place(&Name::new(text)))
}

/// The place of the closest section for i386 that exists of a name.
#[tactic(auto, unfolding(crate::specs::Models::first_place, crate::specs::Models::usual_names))]
fn usual_place(source: &Source, name: Wide) -> Result<Option<usize>, OutOfMemory>
    ensures { IfOk result (λ place. place ≡ first_place (usual_names name) source.now.inf.now) }
{
    if let Some(place) = decorated_section(source, name.as_slice(), &NT_X86)? {
        return Ok(Some(place));
    }
    if let Some(place) = decorated_section(source, name.as_slice(), &NT)? {
        return Ok(Some(place));
    }
    Ok(source.inf.place(&Name::new(name)))
}

/// `NTx86`.
const NT_X86: [u16; 5] = [78, 84, 120, 56, 54];

/// `NT`.
const NT: [u16; 2] = [78, 84];

/// Whether a decoration begins with `NTx86`.
#[tactic(auto, unfolding(crate::specs::Models::is_nt_x86))]
pub fn is_nt_x86(decoration: &[u16]) -> bool
    ensures { result ≡ is_nt_x86 decoration.now }
{
    is_word(&decoration[..decoration.len().min(5)], b"NTx86")
}

/// The place of the section of a name with a decoration that is meant for i386.
#[tactic(auto, unfolding(crate::specs::Models::decoration_place))]
fn decoration_place(
    source: &Source,
    name: &[u16],
    decoration: &[u16],
) -> Result<Option<usize>, OutOfMemory>
    ensures { IfOk result (λ place. place ≡ decoration_place (string_in source.now.strings.now) source.now.inf.now name.now decoration.now) }
{
    let text = source.strings.replaced(source.alloc, decoration)?;
    if is_nt_x86(text.as_slice()) {
        decorated_section(source, name, text.as_slice())
    } else {
        Ok(None)
    }
}

/// The place of the first section that exists of a name with one of the decorations.
#[tactic(auto, unfolding(crate::specs::Models::decorated_place))]
fn decorated_place(
    source: &Source,
    name: &[u16],
    mut decorations: &[Wide],
) -> Result<Option<usize>, OutOfMemory>
    ensures { IfOk result (λ place. place ≡ decorated_place (string_in source.now.strings.now) source.now.inf.now name.now decorations.now) }
{
    while let [decoration, rest @ ..] = decorations {
        if let Some(place) = decoration_place(source, name, decoration.as_slice())? {
            return Ok(Some(place));
        }
        decorations = rest;
    }
    Ok(None)
}

/// All values but the first.
pub fn behind_first(values: &[Wide]) -> &[Wide]
    ensures { result.now ≡ drop 1 values.now }
{
    &values[values.len().min(1)..]
}

/// The place of the models section that a manufacturer's line leads to.
#[tactic(auto, unfolding(crate::specs::Models::models_place))]
fn models_place(source: &Source, maker: &Line) -> Result<Option<usize>, OutOfMemory>
    ensures { IfOk result (λ place. place ≡ models_place (string_in source.now.strings.now) source.now.inf.now maker.now) }
{
    let name = source.strings.value(source.alloc, maker, 0)?;
    let decorations = behind_first(maker.values());
    match decorated_place(source, name.as_slice(), decorations)? {
        Some(place) => Ok(Some(place)),
        None => usual_place(source, name),
    }
}

/// Whether a model line has the hardware id behind its install section.
#[tactic(auto, unfolding(crate::specs::Models::has_id))]
fn has_id(source: &Source, id: &[u16], model: &Line) -> Result<bool, OutOfMemory>
    ensures { IfOk result (λ b. b ≡ has_id (string_in source.now.strings.now) id.now model.now) }
{
    for value in behind_first(model.values()) {
        let text = source.strings.replaced(source.alloc, value.as_slice())?;
        if is_same(id, text.as_slice()) {
            return Ok(true);
        }
    }
    Ok(false)
}

/// The first line of the file among those with the hardware id.
#[tactic(auto, unfolding(crate::specs::Earliest::earliest))]
fn first_with_id<'a>(
    source: &Source,
    id: &[u16],
    lines: &[&'a Line],
) -> Result<Option<&'a Line>, OutOfMemory>
    ensures { IfOk result (λ l. option_copied l ≡ earliest (has_id (string_in source.now.strings.now) id.now) (map (λ l. l.now) lines.now)) }
{
    let mut best: Option<&Line> = None;
    for line in lines {
        best = earlier_if(has_id(source, id, line)?, best, line);
    }
    Ok(best)
}

/// The places of the models sections that manufacturers' lines lead to, in order.
#[tactic(auto, using(crate::proofs::ListLemmas::filter_map_more))]
fn models_places(source: &Source, makers: &[Line]) -> Result<Vec<usize>, OutOfMemory>
    ensures { IfOk result (λ v. v.items ≡ filter_map (models_place (string_in source.now.strings.now) source.now.inf.now) makers.now) }
{
    let mut places = Vec::new(source.alloc);
    for maker in makers {
        let place = models_place(source, maker)?;
        push_place(&mut places, place)?;
    }
    Ok(places)
}

/// The first line of the file among the model lines with the hardware id.
#[tactic(auto, using(crate::proofs::ParamLaws::earliest_thinned))]
pub fn model_of<'a>(
    source: &Source<'a>,
    makers: &[Line],
    id: &[u16],
) -> Result<Option<&'a Line>, OutOfMemory>
    ensures { IfOk result (λ l. option_copied l ≡ model_of (string_in source.now.strings.now) source.now.inf.now makers.now id.now) }
{
    let places = models_places(source, makers)?;
    let models = lines_thinned(source, places.as_slice())?;
    first_with_id(source, id, models.as_slice())
}

/// The place of the install section that a model line names.
#[tactic(auto, unfolding(crate::specs::Models::install_place))]
pub fn install_place(source: &Source, model: &Line) -> Result<Option<usize>, OutOfMemory>
    ensures { IfOk result (λ place. place ≡ install_place (string_in source.now.strings.now) source.now.inf.now model.now) }
{
    let name = source.strings.value(source.alloc, model, 0)?;
    usual_place(source, name)
}
