//! Refusals of one line.

ghost use Rattle.std.specs.Prelude.{◌≡◌};
ghost use Rattle.log_fields.specs.declared.line_refusal.LineRefusal.TheVariants.{Memory};

use nd_base::OutOfMemory;

/// Why no entry was read.
#[derive(Clone, Copy, Debug, PartialEq, Eq)]
pub enum LineRefusal {
    /// Memory ran out.
    Memory,
    /// No entry's text begins the bytes.
    NoEntry,
}

impl From<OutOfMemory> for LineRefusal {
    ghost from_gives = { λ _ e. e ≡ Memory };

    fn from(_e: OutOfMemory) -> LineRefusal {
        LineRefusal::Memory
    }
}
