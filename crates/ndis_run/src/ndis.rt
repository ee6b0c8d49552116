//! The top call.

ghost use Rattle.std.specs.Prelude.{◌≡◌, ℕ, List, IsTrue, string_bytes, map};
ghost use Rattle.ndis_run.specs.Devices.{devices};
ghost use Rattle.ndis_run.specs.Tool.{Ends, EndsWithNoForm};
ghost use Rattle.ndis_run.specs.Words.{Form, IsForm, IsInput, IsOutput};

use crate::tool::tool_main;
use nd_base::{Files, Gate, Sink};
use std::alloc::Global;
use std::sync::Wait;
use std::thread::Threads;

/// Runs the command that the words spell, as [`tool_main`] does. The gate is for the drivers of a
/// whole run, and is not passed before there is one.
pub fn ndis_main<R: Threads + Wait + Sync, F: Files, O: Sink, G: Gate + Sync>(
    alloc: Global,
    _rt: &R,
    words: &[String],
    files: &mut F,
    out: &mut O,
    _gate: &G,
) -> u8
    requires inputs { (name : List ℕ) → IsInput (map string_bytes words.now) name → IsTrue (F.may_read files.old name) }
    requires outputs { (name : List ℕ) → IsOutput (map string_bytes words.now) name → IsTrue (F.may_write files.old name) }
    ensures form { (form : Form) → IsForm form (map string_bytes words.now)
        → Ends form result (devices F.Files O.Sink files.old out.old) (devices F.Files O.Sink files.new out.new) }
    ensures no_form { ((form : Form) → IsForm form (map string_bytes words.now) → ⊥)
        → EndsWithNoForm result (devices F.Files O.Sink files.old out.old) (devices F.Files O.Sink files.new out.new) }
    ensures words { result ≡ 2 → (form : Form) → IsForm form (map string_bytes words.now) → ⊥ }
{
    tool_main(alloc, words, files, out)
}
