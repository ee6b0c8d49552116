//! Lists of lines.

ghost use Rattle.std.specs.Prelude.{◌≡◌, ◌++◌, ◌∷◌, map, None, if◌then◌else◌, IfOk, OnOk};
ghost use Rattle.std.specs.Option.{option_copied};
ghost use Rattle.inf_file.specs.Earliest.{earlier};
ghost use Rattle.inf_file.specs.Parameters.{lines_of_all, lines_read, directives_of};

use crate::source::Source;
use inf_text::Line;
use nd_base::OutOfMemory;
use std::alloc::Global;

/// Of two lines the one that stands first in the file.
fn earlier<'a>(best: Option<&'a Line>, line: &'a Line) -> Option<&'a Line>
    ensures { option_copied result ≡ earlier (option_copied best.entry) line.now }
{
    match best {
        None => Some(line),
        Some(first) => {
            if line.number() < first.number() {
                Some(line)
            } else {
                Some(first)
            }
        }
    }
}

/// The same where the second line passes a test, and else the first one.
pub fn earlier_if<'a>(passes: bool, best: Option<&'a Line>, line: &'a Line) -> Option<&'a Line>
    ensures { option_copied result ≡ (if passes then earlier (option_copied best.entry) line.now else option_copied best.entry) }
{
    if passes { earlier(best, line) } else { best }
}

/// Puts lines behind the last one.
fn push_lines<'a>(found: &mut Vec<&'a Line>, lines: &'a [Line]) -> Result<(), OutOfMemory>
    ensures { OnOk result (map (λ l. l.now) found.new.items ≡ map (λ l. l.now) found.old.items ++ lines.now) }
{
    for line in lines {
        found.push(line)?;
    }
    Ok(())
}

/// The lines of the sections at these places, one section after the other.
pub fn lines_of_all<'a>(source: &Source<'a>, places: &[usize]) -> Result<Vec<&'a Line>, OutOfMemory>
    ensures { IfOk result (λ v. map (λ l. l.now) v.items ≡ lines_of_all source.now.inf.now places.now) }
{
    let mut found = Vec::new(source.alloc);
    for place in places {
        push_lines(&mut found, source.inf.lines_at(*place))?;
    }
    Ok(found)
}

/// The AddReg directives among lines.
pub fn directives_of(alloc: Global, lines: &[Line]) -> Result<Vec<&Line>, OutOfMemory>
    ensures { IfOk result (λ v. map (λ l. l.now) v.items ≡ directives_of lines.now) }
{
    let mut found = Vec::new(alloc);
    for line in lines {
        if line.has_key(b"AddReg") {
            found.push(line)?;
        }
    }
    Ok(found)
}

/// The lines that are read: those of the manufacturers, the model's, the AddReg directives and the
/// rows.
pub fn lines_read<'a>(
    alloc: Global,
    makers: &'a [Line],
    model: &'a Line,
    directives: &[&'a Line],
    rows: &[&'a Line],
) -> Result<Vec<&'a Line>, OutOfMemory>
    ensures { IfOk result (λ v. map (λ l. l.now) v.items ≡ lines_read makers.now model.now (map (λ l. l.now) directives.now) (map (λ l. l.now) rows.now)) }
{
    let mut read = Vec::new(alloc);
    push_lines(&mut read, makers)?;
    read.push(model)?;
    read.extend_from_slice(directives)?;
    read.extend_from_slice(rows)?;
    Ok(read)
}
