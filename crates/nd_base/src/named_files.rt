//! Named files.

ghost use Rattle.std.specs.Prelude.{◌≡◌, ℕ, ◌≤◌, ◌++◌, List, [], Bool, Option, Some, None, length, take, IfOk, OnOk, OnErr, IsErrOf, IsTrue};
ghost use Rattle.std.specs.FinMap.{insert};
ghost use Rattle.nd_base.specs.Files.{Kept, bytes_at, Rose, OnlyReads, OnlyWrites, ReadsFrom};

use crate::fault::IoFault;

/// Named files, each a list of bytes. An implementation may tell the bytes (`kept`); it always has
/// two counts of faults, of size and read, and of create and append. They never fall, and a call
/// that succeeds leaves them.
pub trait Files {
    ghost kept: { Self → Option Kept };

    ghost read_faults: { Self → ℕ };

    ghost write_faults: { Self → ℕ };

    ghost may_read: { Self → List ℕ → Bool };

    ghost may_write: { Self → List ℕ → Bool };

    /// The length of a file, in bytes.
    fn size(&mut self, name: &str) -> Result<u64, IoFault>
        requires { IsTrue (may_read self.old name.now) }
        ensures known { IfOk result (λ n. (m : Kept) → kept self.old ≡ Some m → n ≡ length (bytes_at m name.now)) }
        ensures cause { IsErrOf result IoFault.Failed → Rose (read_faults self.old) (read_faults self.new) }
        ensures quiet { OnOk result (read_faults self.new ≡ read_faults self.old) }
        ensures only { OnlyReads kept read_faults write_faults may_read may_write self.old self.new };

    /// Reads bytes of a file from the byte `at` on into the front of `buf`, and answers how many
    /// they are: none only at the end of the file or for an empty `buf`.
    fn read(&mut self, name: &str, at: u64, buf: &mut [u8]) -> Result<usize, IoFault>
        requires { IsTrue (may_read self.old name.now) }
        ensures count { IfOk result (λ n. n ≤ length buf.old) }
        ensures known { IfOk result (λ n. (m : Kept) → kept self.old ≡ Some m
            → ReadsFrom (bytes_at m name.now) at n (length buf.old) buf.new) }
        ensures cause { IsErrOf result IoFault.Failed → Rose (read_faults self.old) (read_faults self.new) }
        ensures quiet { OnOk result (read_faults self.new ≡ read_faults self.old) }
        ensures only { OnlyReads kept read_faults write_faults may_read may_write self.old self.new };

    /// Makes a file of no bytes, in place of one that has the name.
    fn create(&mut self, name: &str) -> Result<(), IoFault>
        requires { IsTrue (may_write self.old name.now) }
        ensures known { OnOk result ((m : Kept) → kept self.old ≡ Some m → kept self.new ≡ Some (insert m name.now [])) }
        ensures err { OnErr result (kept self.new ≡ kept self.old) }
        ensures untold { kept self.old ≡ None → kept self.new ≡ None }
        ensures cause { IsErrOf result IoFault.Failed → Rose (write_faults self.old) (write_faults self.new) }
        ensures quiet { OnOk result (write_faults self.new ≡ write_faults self.old) }
        ensures only { OnlyWrites read_faults write_faults may_read may_write self.old self.new };

    /// Puts bytes from the front of `piece` behind the last byte of a file, and answers how many:
    /// none only for an empty `piece`.
    fn append(&mut self, name: &str, piece: &[u8]) -> Result<usize, IoFault>
        requires { IsTrue (may_write self.old name.now) }
        ensures count { IfOk result (λ n. n ≤ length piece.now) }
        ensures takes { IfOk result (λ n. n ≡ 0 → length piece.now ≡ 0) }
        ensures known { IfOk result (λ n. (m : Kept) → kept self.old ≡ Some m
            → kept self.new ≡ Some (insert m name.now (bytes_at m name.now ++ take n piece.now))) }
        ensures err { OnErr result (kept self.new ≡ kept self.old) }
        ensures untold { kept self.old ≡ None → kept self.new ≡ None }
        ensures cause { IsErrOf result IoFault.Failed → Rose (write_faults self.old) (write_faults self.new) }
        ensures quiet { OnOk result (write_faults self.new ≡ write_faults self.old) }
        ensures only { OnlyWrites read_faults write_faults may_read may_write self.old self.new };
}
