//! That bytes and refusals exclude each other, and that there are no two of either.

ghost use Rattle.line_bytes.specs.Excluding.{BytesExcludeRefusal};
ghost use Rattle.line_bytes.specs.One.{MadeIsOne, PieceIsOne, ReasonIsOne};

use asm_encode::template_is_one;

/// What a line says has no bytes where it is refused for a value or an operand, whichever spelling is
/// taken.
pub fn bytes_exclude_refusal()
    ensures { BytesExcludeRefusal }
{}

/// Wherever labels stand, an instruction is one thing as bytes.
pub fn made_is_one()
    ensures { MadeIsOne }
{
    template_is_one();
}

/// Where a line stands and labels stand, it has no two pieces of bytes.
pub fn piece_is_one()
    ensures { PieceIsOne }
{
    template_is_one();
}

/// No line is refused both for what it is and for a value.
pub fn reason_is_one()
    ensures { ReasonIsOne }
{}
