//! The parameters of a hardware id.

ghost use Rattle.std.specs.Prelude.{codes, ◌≡◌, true, is_some, map};
ghost use Rattle.inf_file.specs.Keyed.{string_in};
ghost use Rattle.inf_text.specs.Sections.{lines_named};
ghost use Rattle.inf_file.specs.Models.{is_signed};
ghost use Rattle.inf_file.specs.Parameters.{strings_in, model_in, install_of, answer, lines_read, of_rows, of_directives, parameters_of};
ghost use Rattle.nd_base.specs.Results.{Gives};

use crate::gathered::params_of;
use crate::in_place::refusal_in_place;
use crate::lines::{directives_of, lines_read};
use crate::models::{install_place, is_signed, model_of};
use crate::param::{Param, ParamRefusal};
use crate::reading::{first_lacking, rows_named};
use crate::source::Source;
use crate::strings::Strings;
use inf_text::{Inf, Line};
use std::alloc::Global;

/// The parameters that rows give, or the first line that is wrong among those that are read.
fn of_rows(
    source: &Source,
    makers: &[Line],
    model: &Line,
    directives: &[&Line],
    rows: &[&Line],
) -> Result<Vec<Param>, ParamRefusal>
    ensures { Gives ParamRefusal.OutOfMemory (λ v. v.items) result (of_rows (string_in source.now.strings.now) (lines_read makers.now model.now (map (λ l. l.now) directives.now) (map (λ l. l.now) rows.now)) (map (λ l. l.now) rows.now)) }
{
    let read = lines_read(source.alloc, makers, model, directives, rows)?;
    match first_lacking(source, read.as_slice())? {
        Some(line) => Err(ParamRefusal::NoString(line.number())),
        None => params_of(source, rows),
    }
}

/// The same, where the rows are those of directives.
fn of_directives(
    source: &Source,
    makers: &[Line],
    model: &Line,
    directives: &[&Line],
) -> Result<Vec<Param>, ParamRefusal>
    ensures { Gives ParamRefusal.OutOfMemory (λ v. v.items) result (of_directives (string_in source.now.strings.now) source.now.inf.now makers.now model.now (map (λ l. l.now) directives.now)) }
{
    let rows = rows_named(source, directives)?;
    of_rows(source, makers, model, directives, rows.as_slice())
}

/// The parameters of a hardware id, where the signature is good.
fn searched(inf: &Inf, alloc: Global, hardware_id: &[u16]) -> Result<Vec<Param>, ParamRefusal>
    ensures { Gives ParamRefusal.OutOfMemory (λ v. v.items) result (answer inf.now (model_in inf.now hardware_id.now) (install_of inf.now hardware_id.now)) }
{
    let strings = Strings::of(alloc, inf.lines_named(b"Strings"))?;
    let source = Source {
        inf,
        strings: &strings,
        alloc,
    };
    let makers = inf.lines_named(b"Manufacturer");
    let Some(model) = model_of(&source, makers, hardware_id)? else {
        return Err(ParamRefusal::NoModel);
    };
    let Some(install) = install_place(&source, model)? else {
        return Err(ParamRefusal::NoInstall);
    };
    let directives = directives_of(alloc, inf.lines_at(install))?;
    of_directives(&source, makers, model, directives.as_slice())
}

/// The parameters that an INF file gives a hardware id, in the order of their first rows, with the
/// defaults of those that no row sets behind them.
#[tactic(auto, unfolding(crate::specs::Parameters::parameters_of))]
pub fn parameters(inf: &Inf, alloc: Global, hardware_id: &[u16]) -> Result<Vec<Param>, ParamRefusal>
    ensures value { Gives ParamRefusal.OutOfMemory (λ v. v.items) result (parameters_of inf.now hardware_id.now) }
    // A file without a signature of Windows, one without a model of the hardware id and one without
    // its install section are refused as that, whatever memory there is.
    ensures memory { result ≡ Err ParamRefusal.OutOfMemory → (is_signed (lines_named (codes "Version") inf.now) ≡ true) × (is_some (install_of inf.now hardware_id.now) ≡ true) }
{
    if !is_signed(inf.lines_named(b"Version")) {
        return Err(ParamRefusal::NoVersion);
    }
    match searched(inf, alloc, hardware_id) {
        Err(ParamRefusal::OutOfMemory) => Err(refusal_in_place(inf, hardware_id)),
        answer => answer,
    }
}
