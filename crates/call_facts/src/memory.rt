//! Which bytes of guest memory may be read.

ghost use Rattle.call_facts.specs.Memory.{MemoryStaysReadable};

use legal_run::calls_keep;
use nd_mem::write_laws;
use run_facts::runs_go_on;

/// Which bytes may be read, written and executed never changes in a run.
pub fn memory_stays_readable()
    ensures { MemoryStaysReadable }
{
    write_laws();
    calls_keep();
    runs_go_on();
}
