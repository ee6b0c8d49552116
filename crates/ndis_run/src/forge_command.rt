//! `forge KIND SYS INF`: the files of a test miniport.

ghost use Rattle.std.specs.Prelude.{◌≡◌, ◌⊎◌, ◌≤◌, List, ℕ, Some, length, take, OnOk, IsErrOf, IsTrue};
ghost use Rattle.std.specs.FinMap.{insert};
ghost use Rattle.nd_base.specs.Files.{Kept, Rose, OnlyWrites};
ghost use Rattle.ndis_run.specs.Devices.{storage};
ghost use Rattle.ndis_run.specs.ForgeCommand.{ForgesAndWrites};
ghost use Rattle.ndis_run.specs.Transfer.{Writes, WritesFront};

use crate::transfer::append_all;
use forged_miniports::{Kind, forge};
use nd_base::laws::{set_files_are_kept, writes_add_up};
use nd_base::{Files, IoFault};
use std::alloc::Global;

/// Why the files of a miniport do not stand.
#[derive(Clone, Copy, Debug, PartialEq, Eq)]
pub enum ForgeFailure {
    Memory,
    /// A create or append of the image's file failed.
    Image,
    /// A create or append of the INF file failed.
    Inf,
}

/// Makes a file of these bytes, in place of one that has the name.
fn write_file<F: Files>(files: &mut F, name: &str, bytes: &[u8]) -> Result<(), IoFault>
    requires { IsTrue (F.may_write files.old name.now) }
    ensures ok { OnOk result (Writes (F.kept files.old) (F.kept files.new) name.now bytes.now) }
    ensures front { WritesFront (F.kept files.old) (F.kept files.new) name.now bytes.now }
    ensures cause { IsErrOf result IoFault.Failed → Rose (F.write_faults files.old) (F.write_faults files.new) }
    ensures quiet { OnOk result (F.write_faults files.new ≡ F.write_faults files.old) }
    ensures only { OnlyWrites F.read_faults F.write_faults F.may_read F.may_write files.old files.new }
{
    writes_add_up::<F>();
    files.create(name)?;
    append_all(files, name, bytes)
}

/// Makes the files of a miniport: SYS of its image, and then INF.
pub fn write_miniport<F: Files>(
    alloc: Global,
    files: &mut F,
    kind: Kind,
    sys: &str,
    inf: &str,
) -> Result<(), ForgeFailure>
    requires image { IsTrue (F.may_write files.old sys.now) }
    requires inf { IsTrue (F.may_write files.old inf.now) }
    ensures { ForgesAndWrites kind sys.now inf.now result (storage F.Files files.old) (storage F.Files files.new) }
{
    writes_add_up::<F>();
    let Ok(miniport) = forge(alloc, kind) else {
        return Err(ForgeFailure::Memory);
    };
    match write_file(files, sys, miniport.image.as_slice()) {
        Ok(()) => {}
        Err(IoFault::Failed) => return Err(ForgeFailure::Image),
        Err(IoFault::Memory) => return Err(ForgeFailure::Memory),
    }
    match write_file(files, inf, miniport.inf.as_slice()) {
        Ok(()) => Ok(()),
        Err(IoFault::Failed) => Err(ForgeFailure::Inf),
        Err(IoFault::Memory) => Err(ForgeFailure::Memory),
    }
}
