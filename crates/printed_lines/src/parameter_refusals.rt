//! The line of each refusal of an INF file.

ghost use Rattle.std.specs.Prelude.{◌≡◌, IfOk};
ghost use Rattle.printed_lines.specs.ParameterLines.{inf_line, parameters_line};
ghost use Rattle.printed_lines.specs.RefusalLine.{refusal_line};

use crate::refusal_line::refusal_line;
use inf_file::ParamRefusal;
use inf_text::InfRefusal;
use nd_base::{Bytes, OutOfMemory};
use std::alloc::Global;

fn inf_words(refusal: InfRefusal) -> (&'static str, Option<u32>)
    ensures { refusal_line result.0.now result.1 ≡ inf_line refusal }
{
    match refusal {
        InfRefusal::OutOfMemory => ("memory", None),
        InfRefusal::TooLong => ("inf too-long", None),
        InfRefusal::BadText(at) => ("inf bad-text", Some(at)),
        InfRefusal::Line(n) => ("inf line", Some(n)),
    }
}

fn parameters_words(refusal: ParamRefusal) -> (&'static str, Option<u32>)
    ensures { refusal_line result.0.now result.1 ≡ parameters_line refusal }
{
    match refusal {
        ParamRefusal::OutOfMemory => ("memory", None),
        ParamRefusal::NoVersion => ("inf no-version", None),
        ParamRefusal::NoModel => ("inf no-model", None),
        ParamRefusal::NoInstall => ("inf no-install", None),
        ParamRefusal::NoString(n) => ("inf no-string", Some(n)),
        ParamRefusal::BadValue(n) => ("inf bad-value", Some(n)),
    }
}

/// The line of an INF file's refusal: `inf`, its name, and its offset or line.
pub fn inf_line(alloc: Global, refusal: InfRefusal) -> Result<Bytes, OutOfMemory>
    ensures { IfOk result (λ line. line ≡ inf_line refusal) }
{
    let (words, number) = inf_words(refusal);
    refusal_line(alloc, words, number)
}

/// The line of a refusal of an id's parameters: `inf`, its name, and its line.
pub fn parameters_line(alloc: Global, refusal: ParamRefusal) -> Result<Bytes, OutOfMemory>
    ensures { IfOk result (λ line. line ≡ parameters_line refusal) }
{
    let (words, number) = parameters_words(refusal);
    refusal_line(alloc, words, number)
}
