//! `run0 SYS LOG`: DriverEntry of an image alone.

ghost use Rattle.std.specs.Prelude.{◌≡◌, ◌≢◌, ℕ, ◌<◌, ◌⊎◌, Some, None, Ok, Err, IfOk, IfErr, OnOk, OnErr, IsTrue, List};
ghost use Rattle.std.specs.FinMap.{insert};
ghost use Rattle.nd_base.specs.Files.{Kept, bytes_at, Rose, OnlyReads, OnlyWrites};
ghost use Rattle.pe_image.specs.Image.{ImageParts};
ghost use Rattle.printed_lines.specs.ImageLines.{image_line};
ghost use Rattle.ndis_run.specs.Printed.{driver_entry_line, ending_text};
ghost use Rattle.call_log.specs.Lines.{log_text};
ghost use Rattle.import_slots.specs.Slots.{first_unknown, addresses_of};
ghost use Rattle.entry_session.specs.Session.{Setting};
ghost use Rattle.ndis_run.specs.Transfer.{WritesFront};
ghost use Rattle.ndis_run.specs.Shown.{served, judged};
ghost use Rattle.ndis_run.specs.Devices.{storage};
ghost use Rattle.ndis_run.specs.RunZero.{HasRun, IsRefusalLine, RunsAndLogs, usual};

use crate::log_file::write_log;
use crate::transfer::{ReadFailure, read_file};
use call_log::Log;
use entry_session::{Ending, Session};
use import_slots::{SlotRefusal, slot_laws, slots};
use nd_base::{Bytes, Files, IoFault, Layout, OutOfMemory};
use pe_image::{Image, ImportAddresses, PeRefusal};
use printed_lines::{image_line, unknown_import_line};
use std::alloc::{AllocError, Global};

/// The most bytes that an image's file may have.
pub const IMAGE_LIMIT: usize = 0x40_0000;

/// What DriverEntry may be charged: an instruction costs one, a call its microseconds.
const BUDGET: u32 = 4_000_000;

/// Why `run0` does not come to an end.
#[derive(Drop)]
pub enum Failure {
    Memory,
    /// A size or read of the image's file failed.
    Unread,
    /// The image is refused, with this line.
    Refused(Bytes),
    /// A create or append of the log's file failed.
    Unwritten,
}

impl From<OutOfMemory> for Failure {
    ghost use Rattle.std.specs.Prelude.{◌≡◌};
    ghost use Rattle.ndis_run.specs.declared.run_zero.Failure.TheVariants.{Memory};

    ghost from_gives = { λ _ e. e ≡ Memory };

    fn from(_error: OutOfMemory) -> Self {
        Failure::Memory
    }
}

/// The refusal of an image, with its line.
fn refused(alloc: Global, refusal: PeRefusal) -> Failure
    ensures line { (line : List ℕ) → result ≡ Failure.Refused line → line ≡ image_line refusal }
    ensures others { (result ≡ Failure.Unread → ⊥) × (result ≡ Failure.Unwritten → ⊥) }
{
    match image_line(alloc, refusal) {
        Ok(line) => Failure::Refused(line),
        Err(_) => Failure::Memory,
    }
}

/// An image that can be run, and the slot of each of its imports.
#[derive(Drop)]
pub struct Loaded {
    pub image: Image,
    pub slots: ImportAddresses,
}

/// The slots of an image's imports, or its refusal where one is in no table.
fn served(alloc: Global, image: &Image) -> Result<ImportAddresses, Failure>
    ensures ok { IfOk result (λ slots. (served image.now (first_unknown image.now.imports) ≡ Ok image.now) × (slots ≡ addresses_of image.now.imports)) }
    ensures refused { IfErr result (λ e. (line : List ℕ) → e ≡ Failure.Refused line → IsRefusalLine line × (served image.now (first_unknown image.now.imports) ≡ Err line)) }
    ensures others { IfErr result (λ e. (e ≡ Failure.Unread → ⊥) × (e ≡ Failure.Unwritten → ⊥)) }
{
    match slots(alloc, image) {
        Ok(slots) => Ok(slots),
        Err(SlotRefusal::OutOfMemory) => Err(Failure::Memory),
        Err(SlotRefusal::UnknownImport(name)) => {
            Err(Failure::Refused(unknown_import_line(alloc, name)?))
        }
    }
}

/// The image of a file's bytes.
#[tactic(auto, unfolding(crate::specs::Shown::judged))]
fn judged(alloc: Global, bytes: &[u8]) -> Result<Loaded, Failure>
    ensures ok { IfOk result (λ loaded. (judged bytes.now ≡ Ok loaded.image) × (loaded.slots ≡ addresses_of loaded.image.imports)) }
    ensures refused { IfErr result (λ e. (line : List ℕ) → e ≡ Failure.Refused line → IsRefusalLine line × (judged bytes.now ≡ Err line)) }
    ensures others { IfErr result (λ e. (e ≡ Failure.Unread → ⊥) × (e ≡ Failure.Unwritten → ⊥)) }
{
    match Image::read(alloc, bytes) {
        Ok(image) => {
            let slots = served(alloc, &image)?;
            Ok(Loaded { image, slots })
        }
        Err(PeRefusal::OutOfMemory) => Err(Failure::Memory),
        Err(refusal) => Err(refused(alloc, refusal)),
    }
}

/// Reads an image's file, and judges it.
#[tactic(auto, using(crate::proofs::Judging::judged_too_large))]
pub fn read_image<F: Files>(alloc: Global, files: &mut F, sys: &str) -> Result<Loaded, Failure>
    requires { IsTrue (F.may_read files.old sys.now) }
    ensures ok { IfOk result (λ loaded. (m : Kept) → F.kept files.old ≡ Some m → judged (bytes_at m sys.now) ≡ Ok loaded.image) }
    ensures slots { IfOk result (λ loaded. loaded.slots ≡ addresses_of loaded.image.imports) }
    ensures refused { IfErr result (λ e. (line : List ℕ) → e ≡ Failure.Refused line → IsRefusalLine line
        × ((m : Kept) → F.kept files.old ≡ Some m → judged (bytes_at m sys.now) ≡ Err line)) }
    ensures not_written { IfErr result (λ e. e ≡ Failure.Unwritten → ⊥) }
    ensures cause { IfErr result (λ e. e ≡ Failure.Unread → Rose (F.read_faults files.old) (F.read_faults files.new)) }
    ensures quiet { OnOk result (F.read_faults files.new ≡ F.read_faults files.old) }
    ensures quiet_refusal { IfErr result (λ e. (line : List ℕ) → e ≡ Failure.Refused line → F.read_faults files.new ≡ F.read_faults files.old) }
    ensures only { OnlyReads F.kept F.read_faults F.write_faults F.may_read F.may_write files.old files.new }
{
    match read_file(alloc, files, sys, IMAGE_LIMIT) {
        Ok(bytes) => judged(alloc, &bytes),
        Err(ReadFailure::Memory) => Err(Failure::Memory),
        Err(ReadFailure::Failed) => Err(Failure::Unread),
        Err(ReadFailure::TooLong) => Err(refused(alloc, PeRefusal::TooLarge)),
    }
}

/// A run of DriverEntry that has ended.
#[derive(Drop)]
pub struct Finished {
    pub ending: Ending,
    /// What it was charged.
    pub charged: u64,
    pub log: Log,
}

/// Runs DriverEntry of an image.
pub fn run_image(alloc: Global, loaded: &Loaded) -> Result<Finished, OutOfMemory>
    ghost setting: { Setting }
    requires given { setting ≡ usual loaded.now.image }
    requires slots { loaded.now.slots ≡ addresses_of loaded.now.image.imports }
    ensures { IfOk result (λ finished. HasRun loaded.now.image finished.ending finished.charged (log_text finished.log.entries)) }
{
    slot_laws();
    let mut session = Session::enter(alloc, &loaded.image, &loaded.slots, Layout::usual(), BUDGET)?;
    let ending = session.finish(alloc)?;
    Ok(Finished {
        ending,
        charged: session.charged,
        log: session.log,
    })
}

/// Reads an image, runs its DriverEntry and writes the log.
pub fn log_run<F: Files>(
    alloc: Global,
    files: &mut F,
    sys: &str,
    log: &str,
) -> Result<Finished, Failure>
    requires readable { IsTrue (F.may_read files.old sys.now) }
    requires writable { IsTrue (F.may_write files.old log.now) }
    ensures { RunsAndLogs sys.now log.now result (storage F.Files files.old) (storage F.Files files.new) }
{
    let loaded = match read_image(alloc, files, sys) {
        Ok(loaded) => loaded,
        Err(failure) => return Err(failure),
    };
    let finished = match run_image(alloc, &loaded) {
        Ok(finished) => finished,
        Err(_) => return Err(Failure::Memory),
    };
    match write_log(alloc, files, log, &finished.log) {
        Ok(()) => Ok(finished),
        Err(IoFault::Failed) => Err(Failure::Unwritten),
        Err(IoFault::Memory) => Err(Failure::Memory),
    }
}
