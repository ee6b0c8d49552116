//! Why a line is not assembled.

ghost use Rattle.std.specs.Prelude.{◌≡◌};
ghost use Rattle.line_bytes.specs.declared.refused.Refused.TheVariants.{OutOfMemory};
ghost use Rattle.line_bytes.specs.Reasons.{refused_of};

use asm_encode::Fault;

/// Why a line is not assembled.
#[derive(Clone, Copy)]
pub enum Refused {
    OutOfMemory,
    /// It is no line of source, repeats a label or names one that there is not, or its operands are
    /// of no form of its mnemonic.
    Line,
    /// A value does not fit its field, or the line takes the text past its most bytes.
    Range,
}

impl From<nd_base::OutOfMemory> for Refused {
    ghost from_gives = { λ _ e. e ≡ OutOfMemory };

    fn from(_error: nd_base::OutOfMemory) -> Refused {
        Refused::OutOfMemory
    }
}

impl Refused {
    /// Why a line whose instruction is not spelled is not assembled.
    pub(crate) fn of(fault: Fault) -> Refused
        ensures { result ≡ refused_of fault }
    {
        match fault {
            Fault::NoForm => Refused::Line,
            Fault::Range => Refused::Range,
        }
    }
}
