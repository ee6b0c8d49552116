//! The commands.

ghost use Rattle.std.specs.Prelude.{◌≡◌, ℕ, IsTrue, string_bytes, map, List};
ghost use Rattle.ndis_run.specs.Devices.{devices};
ghost use Rattle.ndis_run.specs.Shown.{shown_image, shown_inf};
ghost use Rattle.ndis_run.specs.ForgeCommand.{EndsForging};
ghost use Rattle.ndis_run.specs.RunZero.{EndsZero};
ghost use Rattle.ndis_run.specs.Showing.{EndsShowing};
ghost use Rattle.ndis_run.specs.Tool.{Ends, EndsWithNoForm};
ghost use Rattle.ndis_run.specs.Words.{Form, IsForm, IsInput, IsOutput, Makes, Reads, form_of};

use crate::forge_command::{ForgeFailure, write_miniport};
use crate::printing::{IMAGE_REFUSED, tell, tell_end, tell_memory, tell_unread, tell_unwritten};
use crate::run_zero::{Failure, log_run};
use crate::show::{ShowFailure, show_image, show_inf};
use crate::words::{Command, command_of};
use forged_miniports::Kind;
use nd_base::{Files, Sink};
use std::alloc::Global;

/// The status where the words are none of the forms.
const NO_COMMAND: u8 = 2;

/// `run0 SYS LOG`.
fn run_zero<F: Files, O: Sink>(
    alloc: Global,
    sys: &str,
    log: &str,
    files: &mut F,
    out: &mut O,
) -> u8
    requires readable { IsTrue (F.may_read files.old sys.now) }
    requires writable { IsTrue (F.may_write files.old log.now) }
    ensures { EndsZero sys.now log.now result (devices F.Files O.Sink files.old out.old) (devices F.Files O.Sink files.new out.new) }
{
    match log_run(alloc, files, sys, log) {
        Ok(finished) => tell_end(alloc, out, finished.ending, finished.charged),
        Err(Failure::Memory) => tell_memory(out),
        Err(Failure::Unread) => tell_unread(alloc, out, sys),
        Err(Failure::Refused(line)) => tell(out, line.as_slice(), IMAGE_REFUSED),
        Err(Failure::Unwritten) => tell_unwritten(alloc, out, log),
    }
}

/// `show-image SYS`.
fn tell_image<F: Files, O: Sink>(alloc: Global, sys: &str, files: &mut F, out: &mut O) -> u8
    requires { IsTrue (F.may_read files.old sys.now) }
    ensures { EndsShowing shown_image 5 sys.now result (devices F.Files O.Sink files.old out.old) (devices F.Files O.Sink files.new out.new) }
{
    match show_image(alloc, files, sys) {
        Ok(answer) => tell(out, answer.text.as_slice(), answer.status),
        Err(ShowFailure::Memory) => tell_memory(out),
        Err(ShowFailure::Unread) => tell_unread(alloc, out, sys),
    }
}

/// `show-inf INF ID`.
fn tell_inf<F: Files, O: Sink>(alloc: Global, inf: &str, id: &str, files: &mut F, out: &mut O) -> u8
    requires { IsTrue (F.may_read files.old inf.now) }
    ensures { EndsShowing (shown_inf id.now) 6 inf.now result (devices F.Files O.Sink files.old out.old) (devices F.Files O.Sink files.new out.new) }
{
    match show_inf(alloc, files, inf, id) {
        Ok(answer) => tell(out, answer.text.as_slice(), answer.status),
        Err(ShowFailure::Memory) => tell_memory(out),
        Err(ShowFailure::Unread) => tell_unread(alloc, out, inf),
    }
}

/// `forge KIND SYS INF`.
fn forge_files<F: Files, O: Sink>(
    alloc: Global,
    kind: Kind,
    sys: &str,
    inf: &str,
    files: &mut F,
    out: &mut O,
) -> u8
    requires image { IsTrue (F.may_write files.old sys.now) }
    requires inf { IsTrue (F.may_write files.old inf.now) }
    ensures { EndsForging kind sys.now inf.now result (devices F.Files O.Sink files.old out.old) (devices F.Files O.Sink files.new out.new) }
{
    match write_miniport(alloc, files, kind, sys, inf) {
        Ok(()) => 0,
        Err(ForgeFailure::Memory) => tell_memory(out),
        Err(ForgeFailure::Image) => tell_unwritten(alloc, out, sys),
        Err(ForgeFailure::Inf) => tell_unwritten(alloc, out, inf),
    }
}

/// What `--help` prints: the commands, one line each.
pub const HELP: &str = "\
run0 SYS LOG        run the DriverEntry of the driver image SYS alone, and write its log to LOG
show-image SYS      show the headers, sections, imports and relocations of the driver image SYS
show-inf INF ID     show the parameters that the INF file INF gives the hardware id ID
forge KIND SYS INF  write the image SYS and the INF file INF of a test miniport: idle, double, scarce, mute or deserial
--help              list the commands
--version           print the version
";

/// What `--version` prints.
pub const VERSION: &str = "hedzvaki 0.1.0\n";

/// Runs a command: reads and writes its files, prints to `out`, and answers the status.
fn run_command<F: Files, O: Sink>(
    alloc: Global,
    command: Command<'_>,
    files: &mut F,
    out: &mut O,
) -> u8
    requires inputs { (name : List ℕ) → Reads (form_of command) name → IsTrue (F.may_read files.old name) }
    requires outputs { (name : List ℕ) → Makes (form_of command) name → IsTrue (F.may_write files.old name) }
    ensures { Ends (form_of command.entry) result (devices F.Files O.Sink files.old out.old) (devices F.Files O.Sink files.new out.new) }
{
    match command {
        Command::Help => tell(out, HELP.as_bytes(), 0),
        Command::Version => tell(out, VERSION.as_bytes(), 0),
        Command::RunZero { sys, log } => run_zero(alloc, sys, log, files, out),
        Command::ShowImage { sys } => tell_image(alloc, sys, files, out),
        Command::ShowInf { inf, id } => tell_inf(alloc, inf, id, files, out),
        Command::Forge { kind, sys, inf } => forge_files(alloc, kind, sys, inf, files, out),
    }
}

/// Runs the command that the words spell: reads and writes its files, prints to `out`, and answers
/// the status. It waits for nobody, and always returns.
pub fn tool_main<F: Files, O: Sink>(
    alloc: Global,
    words: &[String],
    files: &mut F,
    out: &mut O,
) -> u8
    requires inputs { (name : List ℕ) → IsInput (map string_bytes words.now) name → IsTrue (F.may_read files.old name) }
    requires outputs { (name : List ℕ) → IsOutput (map string_bytes words.now) name → IsTrue (F.may_write files.old name) }
    ensures form { (form : Form) → IsForm form (map string_bytes words.now)
        → Ends form result (devices F.Files O.Sink files.old out.old) (devices F.Files O.Sink files.new out.new) }
    ensures no_form { ((form : Form) → IsForm form (map string_bytes words.now) → ⊥)
        → EndsWithNoForm result (devices F.Files O.Sink files.old out.old) (devices F.Files O.Sink files.new out.new) }
    ensures words { result ≡ 2 → (form : Form) → IsForm form (map string_bytes words.now) → ⊥ }
{
    match command_of(words) {
        Some(command) => run_command(alloc, command, files, out),
        None => tell(out, b"words\n", NO_COMMAND),
    }
}
