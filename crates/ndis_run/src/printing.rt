//! What is printed at a command's end.

ghost use Rattle.std.specs.Prelude.{◌≡◌, ◌≤◌, IfOk, string_bytes, codes};
ghost use Rattle.ndis_run.specs.Devices.{output};
ghost use Rattle.ndis_run.specs.Transfer.{AddsFront};
ghost use Rattle.ndis_run.specs.Prints.{Tells, TellsMemory, TellsUnwritten};
ghost use Rattle.ndis_run.specs.RunZero.{status_of};
ghost use Rattle.ndis_run.specs.Printed.{driver_entry_line, ending_text, memory_line, read_line, write_line};

use crate::transfer::print;
use entry_session::Ending;
use nd_base::laws::{hex_digits_are_padded, risen_counts_stay_risen};
use nd_base::{IoFault, Sink};
use std::alloc::{AllocError, Global};

fn ending_text(alloc: Global, ending: Ending) -> Result<String, AllocError>
    ensures { IfOk result (λ text. string_bytes text ≡ ending_text ending) }
{
    hex_digits_are_padded();
    match ending {
        Ending::Left(status) => {
            let status = status.0;
            format!(in alloc; "{status:08x}")
        }
        Ending::Faulting => String::from_str(alloc, "fault"),
        Ending::Spent => String::from_str(alloc, "budget"),
    }
}

fn driver_entry_line(alloc: Global, ending: Ending, charged: u64) -> Result<String, AllocError>
    ensures { IfOk result (λ text. string_bytes text ≡ driver_entry_line ending charged) }
{
    let ended = ending_text(alloc, ending)?;
    format!(in alloc; "driverentry {ended} charged {charged}\n")
}

fn read_line(alloc: Global, name: &str) -> Result<String, AllocError>
    ensures { IfOk result (λ text. string_bytes text ≡ read_line name.now) }
{
    format!(in alloc; "read {name}\n")
}

fn write_line(alloc: Global, name: &str) -> Result<String, AllocError>
    ensures { IfOk result (λ text. string_bytes text ≡ write_line name.now) }
{
    format!(in alloc; "write {name}\n")
}

/// The status where a size or read failed.
const UNREAD: u8 = 3;
/// The status where a create, append or write failed.
const UNWRITTEN: u8 = 4;
/// The status where the image is refused.
pub const IMAGE_REFUSED: u8 = 5;
/// The status where no memory is left.
const NO_MEMORY: u8 = 10;

/// Prints that no memory is left, as far as that can be printed.
pub fn tell_memory<O: Sink>(out: &mut O) -> u8
    ensures told { TellsMemory result (output O.Sink out.old) (output O.Sink out.new) }
    ensures later { O.faults out.old ≤ O.faults out.new }
{
    let _ = print(out, b"memory\n");
    NO_MEMORY
}

/// Prints that a line was not printed, as far as that can be printed.
fn tell_unprinted<O: Sink>(out: &mut O) -> u8
    ensures status { result ≡ 4 }
    ensures front { AddsFront (O.written out.old) (O.written out.new) (codes "write -\n") }
    ensures later { O.faults out.old ≤ O.faults out.new }
{
    let _ = print(out, b"write -\n");
    UNWRITTEN
}

/// Prints a text, and answers the status that goes with it.
pub fn tell<O: Sink>(out: &mut O, text: &[u8], status: u8) -> u8
    ensures { Tells text.now status result (output O.Sink out.old) (output O.Sink out.new) }
{
    risen_counts_stay_risen();
    match print(out, text) {
        Ok(()) => status,
        Err(IoFault::Memory) => tell_memory(out),
        Err(IoFault::Failed) => tell_unprinted(out),
    }
}

/// The status of a run's end.
fn status_of(ending: Ending) -> u8
    ensures { result ≡ status_of ending }
{
    match ending {
        Ending::Left(_) => 0,
        Ending::Faulting => 1,
        Ending::Spent => 1,
    }
}

/// Prints how DriverEntry ended.
pub fn tell_end<O: Sink>(alloc: Global, out: &mut O, ending: Ending, charged: u64) -> u8
    ensures { Tells (driver_entry_line ending charged) (status_of ending) result (output O.Sink out.old) (output O.Sink out.new) }
{
    match driver_entry_line(alloc, ending, charged) {
        Ok(line) => tell(out, line.as_bytes(), status_of(ending)),
        Err(_) => tell_memory(out),
    }
}

/// Prints that a file was not read.
pub fn tell_unread<O: Sink>(alloc: Global, out: &mut O, name: &str) -> u8
    ensures { Tells (read_line name.now) 3 result (output O.Sink out.old) (output O.Sink out.new) }
{
    match read_line(alloc, name) {
        Ok(line) => tell(out, line.as_bytes(), UNREAD),
        Err(_) => tell_memory(out),
    }
}

/// Prints that a file was not written.
pub fn tell_unwritten<O: Sink>(alloc: Global, out: &mut O, name: &str) -> u8
    ensures { TellsUnwritten name.now result (output O.Sink out.old) (output O.Sink out.new) }
{
    let Ok(line) = write_line(alloc, name) else {
        return tell_memory(out);
    };
    match print(out, line.as_bytes()) {
        Ok(()) => UNWRITTEN,
        Err(IoFault::Failed) => UNWRITTEN,
        Err(IoFault::Memory) => tell_memory(out),
    }
}
