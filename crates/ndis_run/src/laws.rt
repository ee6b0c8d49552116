//! Laws of the definitions that the top calls' clauses cite: each is the contract of a function
//! that does nothing.

ghost use Rattle.std.specs.Prelude.{◌≡◌, ℕ, ◌<◌, ◌⊎◌, List, Some, Ok};
ghost use Rattle.nd_base.specs.Files.{Kept, bytes_at, Rose};
ghost use Rattle.pe_image.specs.Image.{ImageParts};
ghost use Rattle.ndis_run.specs.Devices.{Devices};
ghost use Rattle.ndis_run.specs.Shown.{judged};
ghost use Rattle.ndis_run.specs.RunZero.{EndsZero};
ghost use Rattle.ndis_run.specs.Tool.{Ends};
ghost use Rattle.ndis_run.specs.Words.{Form, IsForm};

/// No words have two forms.
pub fn words_have_one_form()
    ensures { (words : List (List ℕ)) (one other : Form) → IsForm one words → IsForm other words → one ≡ other }
{}

/// A command of which a size or read failed ends with 3, or with 4 where a write to the sink failed, or for want of memory.
pub fn failed_reads_are_told()
    ensures { (form : Form) (status : ℕ) (before after : Devices) → Ends form status before after
        → before.storage.read_faults < after.storage.read_faults
        → (status ≡ 3) ⊎ ((status ≡ 4) × Rose before.output.print_faults after.output.print_faults) ⊎ (status ≡ 10) }
{}

/// Where the image is not refused, nor any of its imports, and no count of faults rose, `run0` ends with 0 or 1, or for want
/// of memory.
pub fn run_zero_is_complete()
    ensures { (sys log : List ℕ) (status : ℕ) (m : Kept) (before after : Devices) (image : ImageParts)
        → EndsZero sys log status before after
        → before.storage.kept ≡ Some m → judged (bytes_at m sys) ≡ Ok image
        → (Rose before.storage.read_faults after.storage.read_faults → ⊥)
        → (Rose before.storage.write_faults after.storage.write_faults → ⊥)
        → (Rose before.output.print_faults after.output.print_faults → ⊥)
        → (status < 2) ⊎ (status ≡ 10) }
{}

/// Over files and a sink whose counts stay 0, `run0` never ends with 3 or 4.
pub fn calm_devices_fail_nothing()
    ensures { (sys log : List ℕ) (status : ℕ) (before after : Devices) → EndsZero sys log status before after
        → (before.storage.read_faults ≡ 0) × (after.storage.read_faults ≡ 0)
        → (before.storage.write_faults ≡ 0) × (after.storage.write_faults ≡ 0)
        → (before.output.print_faults ≡ 0) × (after.output.print_faults ≡ 0)
        → (status ≡ 3 → ⊥) × (status ≡ 4 → ⊥) }
{}
