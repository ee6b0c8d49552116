//! Where lines are written.

ghost use Rattle.std.specs.Prelude.{◌≡◌, ℕ, ◌≤◌, ◌++◌, List, Option, Some, None, length, take, IfOk, OnOk, OnErr, IsErrOf};
ghost use Rattle.nd_base.specs.Files.{Rose};

use crate::fault::IoFault;

/// Where lines are written. An implementation may tell what was written; it always has a count of
/// faults, which never falls, and which a write that succeeds leaves.
pub trait Sink {
    ghost written: { Self → Option (List ℕ) };

    ghost faults: { Self → ℕ };

    /// Writes bytes from the front of `piece`, and answers how many: none only for an empty
    /// `piece`.
    fn write(&mut self, piece: &[u8]) -> Result<usize, IoFault>
        ensures count { IfOk result (λ n. n ≤ length piece.now) }
        ensures takes { IfOk result (λ n. n ≡ 0 → length piece.now ≡ 0) }
        ensures known { IfOk result (λ n. (bytes : List ℕ) → written self.old ≡ Some bytes
            → written self.new ≡ Some (bytes ++ take n piece.now)) }
        ensures err { OnErr result (written self.new ≡ written self.old) }
        ensures untold { written self.old ≡ None → written self.new ≡ None }
        ensures later { faults self.old ≤ faults self.new }
        ensures cause { IsErrOf result IoFault.Failed → Rose (faults self.old) (faults self.new) }
        ensures quiet { OnOk result (faults self.new ≡ faults self.old) };
}
