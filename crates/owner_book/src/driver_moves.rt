//! What becomes of drivers.

ghost use Rattle.std.specs.Prelude.{◌≡◌, [], OnOk, OnErr, slice_get, IfOk};
ghost use Rattle.owner_machine.specs.State.{change};
ghost use Rattle.owner_machine.specs.Adapters.{bound_now, unbound_now};
ghost use Rattle.owner_machine.specs.Requests.{learnt, set_by};
ghost use Rattle.owner_book.specs.Bindings.{with_binding};

use call_log::Question;
use nd_base::{Bytes, OutOfMemory};
use owner_machine::{Binding, Driver};
use owner_rules::{CURRENT_PACKET_FILTER, MULTICAST_LIST, little_endian};
use std::alloc::Global;

/// A driver is bound, or has been: it begins and ends with no filter and no list.
#[tactic(auto, using(owner_rows::specs::Changes::written_at, owner_rows::specs::Changes::change_past))]
pub(crate) fn set_binding(drivers: &mut Vec<Driver>, alloc: Global, b: u8, binding: Binding)
    ensures { drivers.new.items ≡ change (with_binding binding) drivers.old.items b }
{
    if (b as usize) < drivers.len() {
        let row = &mut drivers[b as usize];
        row.binding = binding;
        row.filter = 0;
        row.list = Bytes::new(alloc);
    }
}

fn learn_set(row: &mut Driver, alloc: Global, oid: u32, bytes: &Bytes) -> Result<(), OutOfMemory>
    ensures ok { OnOk result (row.new ≡ set_by oid bytes.now row.old) }
    ensures err { OnErr result (row.new ≡ row.old) }
{
    if oid == CURRENT_PACKET_FILTER {
        let Some(filter) = little_endian(bytes.as_slice()) else {
            return Err(OutOfMemory);
        };
        row.filter = filter;
    } else if oid == MULTICAST_LIST {
        let list = bytes.copied(alloc)?;
        row.list = list;
    }
    Ok(())
}

fn learn_row(row: &mut Driver, alloc: Global, question: &Question) -> Result<(), OutOfMemory>
    ensures ok { OnOk result (row.new ≡ learnt question.now row.old) }
    ensures err { OnErr result (row.new ≡ row.old) }
{
    match question {
        Question::Query { .. } => Ok(()),
        Question::Set { oid, bytes } => learn_set(row, alloc, *oid, bytes),
    }
}

/// A driver learns that what it set is set.
#[tactic(auto, using(owner_rows::specs::Changes::written_at, owner_rows::specs::Changes::change_past, owner_rows::specs::Changes::written_back))]
pub(crate) fn learn(
    drivers: &mut Vec<Driver>,
    alloc: Global,
    b: u8,
    question: &Question,
) -> Result<(), OutOfMemory>
    ensures ok { OnOk result (drivers.new.items ≡ change (learnt question.now) drivers.old.items b) }
    ensures err { OnErr result (drivers.new.items ≡ drivers.old.items) }
{
    if (b as usize) < drivers.len() {
        let row = &mut drivers[b as usize];
        learn_row(row, alloc, question)?;
    }
    Ok(())
}
