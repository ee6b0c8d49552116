//! What a call makes in front of its reply, entry by entry.

ghost use Rattle.std.specs.Prelude.{◌≡◌, [], ◌∷◌};
ghost use Rattle.import_table.specs.Table.{row_of, seen};
ghost use Rattle.run_stops.specs.Standing.{IsGiven, Settles};
ghost use Rattle.run_calls.specs.Answering.{IsMaking, MakesOn, Serving, rest_of};

use crate::moves::write_light;
use crate::replies::reply_due;
use call_log::Entry;
use guest_world::Reply;
use import_table::ImportRow;
use legal_run::run_laws;
use nd_base::CtxNo;
use run_moves::Running;
use std::alloc::Global;
use stop_rooms::rooms_stay;

/// Writes the entry that must stand next.
fn make(run: &mut Running, entry: Entry)
    ghost v: { Serving }
    requires { IsMaking v (entry ∷ rest_of v.inputs run.old) run.old }
    ensures { MakesOn v (rest_of v.inputs run.old) run.old run.new }
{
    rooms_stay();
    run_laws();
    write_light(run, entry);
}

/// Writes what the call makes.
fn make_each(run: &mut Running, entries: Vec<Entry>)
    ghost v: { Serving }
    requires { IsMaking v entries.items run.old }
    ensures { MakesOn v [] run.old run.new }
{
    let mut entries = entries;
    'made: while !entries.is_empty() {
        make(run, entries.remove(0));
    }
}

/// Writes what the call makes, and then its reply.
pub(crate) fn make_and_reply(
    run: &mut Running,
    alloc: Global,
    x: CtxNo,
    row: &ImportRow,
    made: Vec<Entry>,
    reply: Reply,
)
    ghost v: { Serving }
    requires due { IsMaking v made.items run.old }
    requires context { v.context ≡ x }
    requires reply { v.reply ≡ reply }
    requires row { seen row.now ≡ row_of v.import }
    requires given { IsGiven v.inputs }
    ensures { Settles v.inputs run.old run.new }
{
    make_each(run, made);
    reply_due(run, alloc, x, row, reply);
}
