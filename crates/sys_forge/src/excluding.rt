//! That a source has one outcome, but for want of memory.

ghost use Rattle.sys_forge.specs.Excluding.{LinesExcludeRefusal};
ghost use Rattle.sys_forge.specs.One.{LineLaws, AssemblyIsOne, AssembledIsOne, AssembledIsAssembly, AssemblyExcludesRefusal, RefusalIsOne};

use line_bytes::{bytes_exclude_refusal, made_is_one, piece_is_one, reason_is_one};

/// Behind the same lines with the same bytes, no line has bytes and is refused for what it says,
/// whichever spelling is taken.
pub fn lines_exclude_refusal()
    ensures { LinesExcludeRefusal }
{
    bytes_exclude_refusal();
}

/// The laws of single lines.
fn line_laws()
    ensures { LineLaws }
{
    made_is_one();
    piece_is_one();
    reason_is_one();
    bytes_exclude_refusal();
}

/// No source has two assemblies.
pub fn assembly_is_one()
    ensures { AssemblyIsOne }
{
    line_laws();
}

/// Nor do its labels and words stand in two ways.
pub fn assembled_is_one()
    ensures { AssembledIsOne }
{
    line_laws();
}

/// What `assemble_with_places` answers is what `assemble` does.
pub fn assembled_is_assembly()
    ensures { AssembledIsAssembly }
{}

/// No source has an assembly and is refused, but for want of memory.
pub fn assembly_excludes_refusal()
    ensures { AssemblyExcludesRefusal }
{
    line_laws();
}

/// Of a source that is refused one line is named, and one reason.
pub fn refusal_is_one()
    ensures { RefusalIsOne }
{
    line_laws();
}
