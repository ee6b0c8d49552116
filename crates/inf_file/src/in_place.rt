//! Whether a hardware id has a model and an install section, told without memory: names are compared
//! where they stand, in time for each section, name and string.

ghost use Rattle.std.specs.Prelude.{◌≡◌, ◌++◌, None, true, Err, map, is_some, if◌then◌else◌, ◌&&◌, ◌||◌, ◌≢◌};
ghost use Rattle.std.specs.List.{fold, find, position};
ghost use Rattle.std.specs.Option.{option_copied};
ghost use Rattle.inf_text.specs.Names.{is_same};
ghost use Rattle.inf_text.specs.Sections.{place_named, has_key};
ghost use Rattle.inf_file.specs.Strings.{is_empty, meaning, replaced, strings_of};
ghost use Rattle.inf_file.specs.Earliest.{earlier_if};
ghost use Rattle.inf_file.specs.Models.{usual_names, first_place, is_nt_x86, models_place, has_id};
ghost use Rattle.inf_file.specs.Parameters.{strings_in, model_in, install_of, answer};
ghost use Rattle.inf_file.specs.declared.param.ParamRefusal.TheVariants.{OutOfMemory};
ghost use Rattle.inf_file.specs.ByName.{lines_at_some};
ghost use Rattle.inf_file.specs.InPlace.{behind};

use crate::lines::earlier_if;
use crate::models::{DOT, behind_first, is_nt_x86};
use crate::param::ParamRefusal;
use crate::strings::{PERCENT, next_key};
use inf_text::{Inf, Line, is_same};

/// `.NTx86`.
const DOT_NT_X86: [u16; 6] = [46, 78, 84, 120, 56, 54];

/// `.NT`.
const DOT_NT: [u16; 3] = [46, 78, 84];

/// What stands in a text behind a front, without ASCII case.
#[tactic(auto, unfolding(crate::specs::InPlace::behind))]
fn behind<'a>(front: &[u16], text: Option<&'a [u16]>) -> Option<&'a [u16]>
    ensures { option_copied result ≡ behind front.now (option_copied text.entry) }
{
    let text = text?;
    let end = front.len().min(text.len());
    if is_same(front, &text[..end]) {
        Some(&text[end..])
    } else {
        None
    }
}

/// The first line with a key.
#[tactic(auto, unfolding(inf_text::specs::Sections::has_key))]
fn line_of<'a>(lines: &'a [Line], key: &[u16]) -> Option<&'a Line>
    ensures { option_copied result ≡ find (has_key key.now) lines.now }
{
    lines.iter().find(|line| match line.key() {
        Some(own) => is_same(key, own),
        None => false,
    })
}

/// What stands in a text behind what a key means.
#[tactic(auto, using(crate::proofs::InPlaceLaws::meaning_empty, crate::proofs::InPlaceLaws::meaning_is, crate::proofs::InPlaceLaws::meaning_none))]
fn behind_meaning<'a>(strings: &[Line], key: &[u16], text: Option<&'a [u16]>) -> Option<&'a [u16]>
    ensures { option_copied result ≡ behind (meaning (strings_of strings.now) key.now) (option_copied text.entry) }
{
    if key.is_empty() {
        return behind(&[PERCENT], text);
    }
    match line_of(strings, key) {
        Some(line) => behind(line.value_at(0), text),
        None => behind(&[PERCENT], behind(key, behind(&[PERCENT], text))),
    }
}

/// What stands in a text behind a value with its keys replaced.
#[tactic(auto, using(crate::proofs::InPlaceLaws::value_more, crate::proofs::InPlaceLaws::value_last))]
fn behind_value<'a>(inf: &Inf, value: &[u16], text: Option<&'a [u16]>) -> Option<&'a [u16]>
    ensures { option_copied result ≡ behind (replaced (strings_in inf.now) value.now) (option_copied text.entry) }
{
    let strings = inf.lines_named(b"Strings");
    let mut rest = value;
    let mut left = text;
    while let Some((plain, key, more)) = next_key(rest) {
        left = behind_meaning(strings, key, behind(plain, left));
        rest = more;
    }
    behind(rest, left)
}

/// Whether a text is a value with its keys replaced.
#[tactic(auto, using(crate::proofs::InPlaceLaws::value_some, crate::proofs::InPlaceLaws::value_none))]
fn is_value(inf: &Inf, value: &[u16], text: &[u16]) -> bool
    ensures { result ≡ is_same text.now (replaced (strings_in inf.now) value.now) }
{
    match behind_value(inf, value, Some(text)) {
        Some(left) => left.is_empty(),
        None => false,
    }
}

/// Whether an end stands behind no dot or is meant for i386.
fn is_fit(dot: &[u16], end: &[u16]) -> bool
    ensures { result ≡ (is_empty dot.now || is_nt_x86 end.now) }
{
    dot.is_empty() || is_nt_x86(end)
}

/// Whether a name is a value and an end, behind a dot an end that is meant for i386.
#[tactic(auto, using(crate::proofs::InPlaceLaws::named_some, crate::proofs::InPlaceLaws::named_none))]
fn is_named(inf: &Inf, value: &[u16], dot: &[u16], end: &[u16], name: &[u16]) -> bool
    ensures { result ≡ ((is_empty dot.now || is_nt_x86 (replaced (strings_in inf.now) end.now)) && is_same (replaced (strings_in inf.now) value.now ++ (dot.now ++ replaced (strings_in inf.now) end.now)) name.now) }
{
    match behind(dot, behind_value(inf, value, Some(name))) {
        Some(own) => is_fit(dot, own) & is_value(inf, end, own),
        None => false,
    }
}

/// Which of the names of the sections is the first such name.
fn first_named(inf: &Inf, value: &[u16], dot: &[u16], end: &[u16]) -> Option<usize>
    ensures { result ≡ position (λ own. (is_empty dot.now || is_nt_x86 (replaced (strings_in inf.now) end.now)) && is_same (replaced (strings_in inf.now) value.now ++ (dot.now ++ replaced (strings_in inf.now) end.now)) own) (map (λ s. s.name) inf.now) }
{
    inf.names()
        .position(|name| is_named(inf, value, dot, end, name.as_slice()))
}

/// The place of the first section of such a name.
fn place(inf: &Inf, value: &[u16], dot: &[u16], end: &[u16]) -> Option<usize>
    ensures { result ≡ (if is_empty dot.now || is_nt_x86 (replaced (strings_in inf.now) end.now) then place_named (replaced (strings_in inf.now) value.now ++ (dot.now ++ replaced (strings_in inf.now) end.now)) inf.now else None) }
{
    first_named(inf, value, dot, end)
}

/// The place of the closest section for i386 that exists of a name.
#[tactic(auto, using(crate::proofs::InPlaceLaws::usual))]
fn usual_place(inf: &Inf, value: &[u16]) -> Option<usize>
    ensures { result ≡ first_place (usual_names (replaced (strings_in inf.now) value.now)) inf.now }
{
    place(inf, value, &[], &DOT_NT_X86)
        .or(place(inf, value, &[], &DOT_NT))
        .or(place(inf, value, &[], &[]))
}

/// The place of the models section that a manufacturer's line leads to.
#[tactic(auto, unfolding(crate::specs::Models::models_place, crate::specs::Models::decorated_place, crate::specs::Models::decoration_place, crate::specs::Models::dotted))]
fn models_place(inf: &Inf, maker: &Line) -> Option<usize>
    ensures { result ≡ models_place (strings_in inf.now) inf.now maker.now }
{
    let value = maker.value_at(0);
    let mut decorations = behind_first(maker.values());
    while let [decoration, rest @ ..] = decorations {
        if let Some(place) = place(inf, value, &[DOT], decoration.as_slice()) {
            return Some(place);
        }
        decorations = rest;
    }
    usual_place(inf, value)
}

/// Whether a model line has the hardware id behind its install section.
#[tactic(auto, unfolding(crate::specs::Models::has_id))]
fn has_id(inf: &Inf, id: &[u16], model: &Line) -> bool
    ensures { result ≡ has_id (strings_in inf.now) id.now model.now }
{
    behind_first(model.values())
        .iter()
        .any(|value| is_value(inf, value.as_slice(), id))
}

/// Of a line and those of a models section the first of the file with the hardware id.
fn first_with_id<'a>(
    inf: &Inf,
    id: &[u16],
    mut best: Option<&'a Line>,
    lines: &'a [Line],
) -> Option<&'a Line>
    ensures { option_copied result ≡ fold (earlier_if (has_id (strings_in inf.now) id.now)) (option_copied best.entry) lines.now }
{
    for line in lines {
        best = earlier_if(has_id(inf, id, line), best, line);
    }
    best
}

/// The lines of the models section that a manufacturer's line leads to.
fn models_of<'a>(inf: &'a Inf, maker: &Line) -> &'a [Line]
    ensures { result.now ≡ lines_at_some inf.now (models_place (strings_in inf.now) inf.now maker.now) }
{
    match models_place(inf, maker) {
        Some(place) => inf.lines_at(place),
        None => &[],
    }
}

/// The first line of the file among the model lines with the hardware id.
#[tactic(auto, using(crate::proofs::InPlaceLaws::models_more), unfolding(crate::specs::Earliest::earliest))]
fn model_of<'a>(inf: &'a Inf, id: &[u16]) -> Option<&'a Line>
    ensures { option_copied result ≡ model_in inf.now id.now }
{
    let mut best = None;
    for maker in inf.lines_named(b"Manufacturer") {
        best = first_with_id(inf, id, best, models_of(inf, maker));
    }
    best
}

/// Why no parameters are given where memory is wanting.
#[tactic(auto, unfolding(crate::specs::Models::install_place))]
pub fn refusal_in_place(inf: &Inf, id: &[u16]) -> ParamRefusal
    ensures value { result ≢ OutOfMemory → answer inf.now (model_in inf.now id.now) (install_of inf.now id.now) ≡ Err result }
    ensures memory { result ≡ OutOfMemory → is_some (install_of inf.now id.now) ≡ true }
{
    match model_of(inf, id) {
        Some(model) => match usual_place(inf, model.value_at(0)) {
            Some(_) => ParamRefusal::OutOfMemory,
            None => ParamRefusal::NoInstall,
        },
        None => ParamRefusal::NoModel,
    }
}
