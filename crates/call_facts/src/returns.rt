//! Where calls return to.

ghost use Rattle.call_facts.specs.Returns.{CallsReturn};

use import_table::call_laws;
use legal_run::{calls_keep, entry_laws, nothing_stands_between, run_laws};
use nd_mem::write_laws;
use run_facts::runs_go_on;

/// An open call that waits, or whose reply is due, returns to an address that can be read.
pub fn calls_return()
    ensures { CallsReturn }
{
    call_laws();
    run_laws();
    nothing_stands_between();
    entry_laws();
    calls_keep();
    write_laws();
    runs_go_on();
}
