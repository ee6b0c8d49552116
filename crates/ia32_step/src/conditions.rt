//! The conditions of Jcc, SETcc and CMOVcc (Intel SDM volume 1, appendix B).

ghost use Rattle.std.specs.Prelude.{◌≡◌};
ghost use Rattle.ia32_step.specs.Conditions.{holds};

use ia32_arithmetic::Flags;
use ia32_decode::Condition;

/// Whether the condition holds.
#[inline]
pub fn holds(c: Condition, f: Flags) -> bool
    ensures { result ≡ holds c f }
{
    match c {
        Condition::Overflow => f.overflow,
        Condition::NotOverflow => !f.overflow,
        Condition::Below => f.carry,
        Condition::AboveOrEqual => !f.carry,
        Condition::Equal => f.zero,
        Condition::NotEqual => !f.zero,
        Condition::BelowOrEqual => f.carry || f.zero,
        Condition::Above => !(f.carry || f.zero),
        Condition::Sign => f.sign,
        Condition::NotSign => !f.sign,
        Condition::Parity => f.parity,
        Condition::NotParity => !f.parity,
        Condition::Less => f.sign != f.overflow,
        Condition::GreaterOrEqual => f.sign == f.overflow,
        Condition::LessOrEqual => f.zero || f.sign != f.overflow,
        Condition::Greater => !f.zero && f.sign == f.overflow,
    }
}
