//! The packets of a run.

ghost use Rattle.std.specs.Prelude.{◌≡◌, ◌≤◌, ℕ, List, [], ◌∷◌, ◌++◌, length, position, count_by, slice_get, option_copied, OnOk, OnErr, true, Some, not, ◌==◌};
ghost use Rattle.owner_machine.specs.State.{at, change, implies};
ghost use Rattle.owner_machine.specs.Packets.{is_out, in_slot, out_of, slot_of, placed, handed, tagged};
ghost use Rattle.owner_rows.specs.Which.{which_packets};
ghost use Rattle.owner_rows.specs.Kept.{packet_in_slot, most_rows};

use crate::MOST_ROWS;
use crate::numbers::Numbers;
use crate::places::{in_slot, is_miniport, is_out, is_queue};
use crate::tally::recount;
use nd_base::OutOfMemory;
use owner_machine::{Packet, Place};
use std::alloc::Global;
use std::marker::Model;

/// Some packets that are not done.
#[derive(Clone, Copy)]
pub enum WhichPackets {
    /// An adapter's that are outstanding.
    OutOf(u8),
    /// An adapter's in its queue.
    QueuedOf(u8),
    /// An adapter's that its miniport holds.
    HeldOf(u8),
    /// A driver's that are outstanding.
    SentBy(u8),
    /// A driver's with that cancel id, queued.
    QueuedWith(u8, u32),
    /// A driver's with that cancel id, at the miniport.
    HeldWith(u8, u32),
}

impl WhichPackets {
    fn has(self, p: &Packet) -> bool
        ensures { result ≡ which_packets self p.now }
    {
        match self {
            WhichPackets::OutOf(a) => is_out(p.place) && p.adapter.0 == a,
            WhichPackets::QueuedOf(a) => is_queue(p.place) && p.adapter.0 == a,
            WhichPackets::HeldOf(a) => is_miniport(p.place) && p.adapter.0 == a,
            WhichPackets::SentBy(b) => is_out(p.place) && p.driver.0 == b,
            WhichPackets::QueuedWith(b, id) => {
                is_queue(p.place) && p.driver.0 == b && p.id == id
            }
            WhichPackets::HeldWith(b, id) => {
                is_miniport(p.place) && p.driver.0 == b && p.id == id
            }
        }
    }
}

/// The packets by number, seen as the list of them.
#[derive(Drop)]
pub struct Packets {
    rows: Vec<Packet>,
    /// The numbers of those whose send slots are in use.
    live: Numbers,
    /// How many of each adapter are outstanding.
    out: [u64; 256],
    /// How many send slots of each driver are in use.
    slots: [u64; 256],
}

impl Model for Packets {
    ghost use Rattle.std.specs.Prelude.{List};
    ghost use Rattle.owner_machine.specs.declared.rows.Packet.{Packet};
    ghost use Rattle.owner_rows.specs.Kept.{KeepsPackets};

    ghost Value = { List Packet };

    ghost view = { λ p. p.rows.items };

    ghost invariant = { λ p. KeepsPackets p.rows.items p.live p.out p.slots };
}

impl Packets {
    /// No packets.
    pub fn new(alloc: Global) -> Packets
        ensures { result ≡ [] }
    {
        Packets {
            rows: Vec::new(alloc),
            live: Numbers::new(alloc),
            out: [0; 256],
            slots: [0; 256],
        }
    }

    /// How many packets there are.
    pub fn len(&self) -> u64
        ensures { result ≡ length self.now }
    {
        self.rows.len() as u64
    }

    /// The packet of a number.
    pub fn get(&self, k: u64) -> Option<&Packet>
        ensures { option_copied result ≡ slice_get self.now k }
    {
        self.rows.as_slice().get(k as usize)
    }

    /// A copy of the packet of a number.
    fn row(&self, k: u64) -> Option<Packet>
        ensures { result ≡ slice_get self.now k }
    {
        self.get(k).copied()
    }

    /// How many packets of an adapter are outstanding.
    pub fn out(&self, a: u8) -> u64
        ensures value { result ≡ count_by (out_of a) self.now }
        ensures few { result ≤ most_rows }
    {
        self.out[a as usize]
    }

    /// How many send slots of a driver are in use.
    pub fn slots(&self, b: u8) -> u64
        ensures { result ≡ count_by (slot_of b) self.now }
    {
        self.slots[b as usize]
    }

    /// The least of some packets.
    pub fn first(&self, which: WhichPackets) -> Option<u64>
        ensures { result ≡ position (which_packets which) self.now }
    {
        for i in 0..self.live.len() {
            let k = self.live.at(i);
            if let Some(p) = self.get(k) {
                if which.has(p) {
                    return Some(k);
                }
            }
        }
        None
    }

    /// Whether there are any of some packets.
    #[tactic(auto, using(crate::proofs::Rows::any_is))]
    pub fn any(&self, which: WhichPackets) -> bool
        ensures { result ≡ not (count_by (which_packets which) self.now == 0) }
    {
        self.first(which).is_some()
    }

    /// Puts a packet that is outstanding behind the last one.
    pub fn push(&mut self, p: Packet) -> Result<(), OutOfMemory>
        requires { is_out p.place ≡ true }
        ensures ok { OnOk result (self.new ≡ self.old ++ p ∷ []) }
        ensures err { OnErr result (self.new ≡ self.old) }
    {
        let k = self.rows.len() as u64;
        if k >= MOST_ROWS {
            return Err(OutOfMemory);
        }
        self.rows.reserve(1)?;
        self.live.push(k)?;
        self.rows.push_reserved(p);
        recount(&mut self.out, p.adapter.0, false, true);
        recount(&mut self.slots, p.driver.0, false, true);
        Ok(())
    }

    /// Changes a packet, which stays its driver's and adapter's, and gets no slot anew.
    fn put(&mut self, k: u64, was: Packet, p: Packet)
        requires row { slice_get self.old k ≡ Some was }
        requires driver { p.driver ≡ was.driver }
        requires adapter { p.adapter ≡ was.adapter }
        requires slot { implies (in_slot p.place) (in_slot was.place) ≡ true }
        ensures { self.new ≡ change (λ _. p) self.old k }
    {
        set_row(&mut self.rows, k, was, p);
        let (out, is_out) = (is_out(was.place), is_out(p.place));
        let (slot, is_slot) = (in_slot(was.place), in_slot(p.place));
        self.live.keep(k, slot, is_slot);
        recount(&mut self.out, was.adapter.0, out, is_out);
        recount(&mut self.slots, was.driver.0, slot, is_slot);
    }

    /// Puts a packet whose slot is in use to another place.
    pub fn set_place(&mut self, k: u64, place: Place)
        requires { at packet_in_slot self.old k ≡ true }
        ensures { self.new ≡ change (placed place) self.old k }
    {
        if let Some(was) = self.row(k) {
            self.put(k, was, Packet { place, ..was });
        }
    }

    /// Hands a packet whose slot is in use to the miniport, at the enter of this number.
    pub fn hand(&mut self, k: u64, enter: u64)
        requires { at packet_in_slot self.old k ≡ true }
        ensures { self.new ≡ change (handed enter) self.old k }
    {
        if let Some(was) = self.row(k) {
            let held = Packet {
                place: Place::Miniport,
                hand: enter,
                ..was
            };
            self.put(k, was, held);
        }
    }

    /// Gives a packet a cancel id.
    pub fn tag(&mut self, k: u64, id: u32)
        ensures { self.new ≡ change (tagged id) self.old k }
    {
        if let Some(was) = self.row(k) {
            self.put(k, was, Packet { id, ..was });
        }
    }
}

/// Writes a row.
#[tactic(auto, using(crate::specs::Changes::written))]
fn set_row(rows: &mut Vec<Packet>, k: u64, was: Packet, p: Packet)
    requires { slice_get rows.old.items k ≡ Some was }
    ensures { rows.new.items ≡ change (λ _. p) rows.old.items k }
{
    rows[k as usize] = p;
}
