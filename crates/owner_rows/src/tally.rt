//! Counts of rows by the number of their owner.

ghost use Rattle.std.specs.Prelude.{◌≡◌, ◌<◌, ◌^◌, ◌+◌, ◌-◌, ℕ, get_or};
ghost use Rattle.owner_machine.specs.State.{change};
ghost use Rattle.owner_rows.specs.Tallies.{recounted};

/// One more.
fn raise(counts: &mut [u64; 256], n: u8)
    requires { get_or counts.old n 0 < 2 ^ 63 }
    ensures { counts.new ≡ change (λ m. m + 1) counts.old n }
{
    let count = counts[n as usize];
    counts[n as usize] = count + 1;
}

/// One less.
fn lower(counts: &mut [u64; 256], n: u8)
    ensures { counts.new ≡ change (λ m. m - 1) counts.old n }
{
    let count = counts[n as usize];
    counts[n as usize] = count.saturating_sub(1);
}

/// A row of n passes now, or does so no more: the count of n follows.
pub(crate) fn recount(counts: &mut [u64; 256], n: u8, was: bool, is: bool)
    requires { get_or counts.old n 0 < 2 ^ 63 }
    ensures { counts.new ≡ recounted was is n counts.old }
{
    match (was, is) {
        (false, true) => raise(counts, n),
        (true, false) => lower(counts, n),
        _ => {}
    }
}
