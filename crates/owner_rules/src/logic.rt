//! Words of the tables of needs.

ghost use Rattle.std.specs.Prelude.{◌≡◌};
ghost use Rattle.owner_machine.specs.State.{implies, unless, is_number};

/// Whether the second holds where the first does.
pub(crate) fn implies(premise: bool, conclusion: bool) -> bool
    ensures { result ≡ implies premise conclusion }
{
    !premise || conclusion
}

/// No rule where a need is met, else this one.
pub(crate) fn unless(met: bool, rule: u8) -> Option<u8>
    ensures { result ≡ unless met rule }
{
    if met { None } else { Some(rule) }
}

/// Whether there is a number, and it is this one.
pub(crate) fn is_number(number: Option<u64>, k: u64) -> bool
    ensures { result ≡ is_number number k }
{
    match number {
        Some(n) => n == k,
        None => false,
    }
}
