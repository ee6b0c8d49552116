//! NdisMIndicateReceivePacket.

ghost use Rattle.std.specs.Prelude.{◌≡◌, ◌≤◌, ◌<◌, ◌+◌, ◌*◌, ◌++◌, ◌∷◌, [], true, if◌then◌else◌, count_by, length, OnOk, IfOk};
ghost use Rattle.owner_machine.specs.Loans.{away_of};
ghost use Rattle.import_answers.specs.Outcomes.{can_read};
ghost use Rattle.legal_run.specs.State.{State};
ghost use Rattle.legal_run.specs.Calls.{Went, array_made, indicated, indication, words_from};
ghost use Rattle.call_verdicts.specs.Deeds.{CanLend, did_as, writes_of};

use crate::deeds::{Deed, breaks};
use crate::holders::away;
use crate::lendings::{LIMIT_RULE, Lending, judged};
use call_log::Entry;
use guest_world::World;
use log_fields::Writes;
use nd_base::{AdapterNo, OutOfMemory};
use nd_mem::fault_laws;
use owner_book::Book;
use std::alloc::Global;
use verdict_parts::word_at;

/// The most packets of an array.
const MOST_PACKETS: usize = 64;

/// What an array makes so far.
#[derive(Drop)]
struct Array {
    entries: Vec<Entry>,
    lent: Vec<u32>,
    writes: Writes,
}

impl Array {
    fn new(alloc: Global) -> Array
        ensures entries { result.entries.items ≡ [] }
        ensures lent { result.lent.items ≡ [] }
        ensures writes { result.writes ≡ [] }
    {
        Array {
            entries: Vec::new(alloc),
            lent: Vec::new(alloc),
            writes: Writes::new(alloc),
        }
    }

    /// Puts what a packet makes behind the others.
    fn put(&mut self, packet: u32, told: Lending) -> Result<(), OutOfMemory>
        ensures entries { OnOk result (self.new.entries.items ≡ self.old.entries.items ++ told.entry ∷ []) }
        ensures lent { OnOk result (self.new.lent.items ≡ self.old.lent.items ++ packet ∷ []) }
        ensures writes { OnOk result (self.new.writes ≡ self.old.writes ++ writes_of told.status) }
    {
        let Lending { entry, status, .. } = told;
        self.lent.push(packet)?;
        self.entries.push(entry)?;
        match status {
            Some(write) => self.writes.push(write),
            None => Ok(()),
        }
    }

    /// What all packets of it make, of which there are so many.
    fn made(self, count: usize) -> Deed
        ensures { did_as result ≡ array_made count (Went self.entries.items self.lent.items self.writes) }
    {
        if count > MOST_PACKETS {
            return breaks(LIMIT_RULE);
        }
        Deed::Made(self.entries, self.lent, self.writes)
    }
}

/// How many loans are away behind one more, which goes out or is home at once.
fn away_behind(away: u64, goes: bool) -> u64
    requires { goes ≡ true → away < 256 }
    ensures { result ≡ away + (if goes then 1 else 0) }
{
    if goes { away + 1 } else { away }
}

/// What an array of these packets makes: the rule that the first bad one of them breaks, or the entries
/// that tell their frames, with the packets that are lent and the statuses that are written.
fn indicated(
    alloc: Global,
    book: &Book,
    world: &World,
    a: AdapterNo,
    packets: &[u32],
) -> Result<Deed, OutOfMemory>
    ghost s: { State }
    requires owner { book.now ≡ s.owner }
    requires world { world.now ≡ s.world }
    requires drivers { length s.owner.drivers ≤ 256 }
    requires lends { CanLend s }
    ensures { IfOk result (λ d. did_as d ≡ array_made (length packets.now)
        (indicated s a.0 (length s.owner.loans) (count_by (away_of a.0) s.owner.loans) [] packets.now)) }
{
    let mut array = Array::new(alloc);
    let mut away = away(book, a);
    for (i, packet) in packets.iter().enumerate() {
        let Some(j) = book.loans().checked_add(i as u64) else {
            return Err(OutOfMemory);
        };
        let told = match judged(alloc, book, world, a, j, away, &array.lent, *packet)? {
            Ok(told) => told,
            Err(rule) => return Ok(Deed::Broken(rule)),
        };
        away = away_behind(away, told.goes);
        array.put(*packet, told)?;
    }
    Ok(array.made(packets.len()))
}

/// The words of an array, of which there are n.
fn words_from(alloc: Global, world: &World, array: u32, n: u32) -> Result<Vec<u32>, OutOfMemory>
    ghost s: { State }
    requires world { world.now ≡ s.world }
    requires can { can_read world.now array (4 * n) ≡ true }
    ensures words { IfOk result (λ words. words.items ≡ words_from s array n) }
    ensures count { IfOk result (λ words. length words.items ≡ n) }
{
    fault_laws();
    world.memory.is_low();
    let mut words = Vec::new(alloc);
    for k in 0..n {
        words.push(word_at(&world.memory, array + 4 * k))?;
    }
    Ok(words)
}

/// NdisMIndicateReceivePacket: the packets of an array are told and lent, one after the other.
pub(crate) fn indication(
    alloc: Global,
    book: &Book,
    world: &World,
    a: AdapterNo,
    array: u32,
    n: u32,
) -> Result<Deed, OutOfMemory>
    ghost s: { State }
    requires owner { book.now ≡ s.owner }
    requires world { world.now ≡ s.world }
    requires drivers { length s.owner.drivers ≤ 256 }
    requires lends { CanLend s }
    requires can { can_read world.now array (4 * n) ≡ true }
    ensures { IfOk result (λ d. did_as d ≡ indication s a.0 array n) }
{
    let packets = words_from(alloc, world, array, n)?;
    indicated(alloc, book, world, a, &packets)
}
