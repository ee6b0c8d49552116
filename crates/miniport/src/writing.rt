//! Entries that are written.

ghost use Rattle.std.specs.Prelude.{◌≡◌, ◌<◌, false};
ghost use Rattle.call_log.specs.Lines.{InRange};
ghost use Rattle.owner_machine.specs.Machine.{after};
ghost use Rattle.owner_book.specs.Admitting.{takes_memory};
ghost use Rattle.legal_run.specs.Run.{Meets};
ghost use Rattle.miniport_state.specs.Seen.{Point, Logs};

use call_log::{Entry, Log};
use owner_book::Book;

/// Writes an entry that may stand: into the book, and into the log out of its spare.
pub fn write(book: &mut Book, log: &mut Log, entry: Entry)
    ghost o: { Point }
    requires meets { Meets o.inputs o.state entry }
    requires owner { book.old ≡ o.state.owner }
    requires memory { takes_memory entry ≡ false }
    requires range { InRange entry }
    requires spare { 0 < log.old.spare }
    ensures logs { Logs o entry log.old log.new }
    ensures book { book.new ≡ after o.state.owner entry }
{
    match book.admit(&entry) {
        Ok(()) => {}
        Err(_) => unreachable!(),
    }
    log.append(entry);
}
