//! Numbers at places: a place whose number is not below a bound is found in as many steps as the
//! places can be halved.

ghost use Rattle.std.specs.Prelude.{◌≡◌, ◌<◌, ◌≤◌, ◌^◌, ◌*◌, ◌/◌, ℕ, length, drop, slice_set, slice_index, replicate, IfOk};
ghost use Rattle.free_ranges.specs.Tournament.{IsTournament, IsTournamentBut, IsNotBelow, IsFirstNotBelow};

use std::alloc::{AllocError, Global};
use std::marker::Model;

/// A number at each place.
#[derive(Drop)]
pub(crate) struct Tournament {
    /// At n stands the greater of the numbers at 2 n and 2 n + 1; the places are the last half.
    nodes: Vec<u32>,
    places: usize,
}

impl Model for Tournament {
    ghost use Rattle.std.specs.Prelude.{List, ℕ, drop};
    ghost use Rattle.free_ranges.specs.Tournament.{IsTournament};

    ghost Value = { List ℕ };

    ghost view = { λ t. drop t.places t.nodes.items };

    ghost invariant = { λ t. IsTournament t.places t.nodes.items };
}

impl Tournament {
    /// 0 at each place.
    pub(crate) fn new(alloc: Global, places: u32) -> Result<Tournament, AllocError>
        requires some { 1 ≤ places }
        requires small { places ≤ 2 ^ 30 }
        ensures { IfOk result (λ t. t ≡ replicate places 0) }
    {
        let places = places as usize;
        let nodes = vec![in alloc; 0; 2 * places]?;
        Ok(Tournament { nodes, places })
    }

    /// The number at a place, 0 behind the last one.
    pub(crate) fn get(&self, place: u32) -> u32
        ensures { result ≡ slice_index self.now place }
    {
        let place = place as usize;
        if place >= self.places {
            return 0;
        }
        self.nodes[self.places + place]
    }

    /// Puts a number at a place; behind the last one it is lost.
    pub(crate) fn set(&mut self, place: u32, number: u32)
        ensures { self.new ≡ slice_set self.old place number }
    {
        let place = place as usize;
        if place >= self.places {
            return;
        }
        let leaf = self.places + place;
        self.nodes[leaf] = number;
        mend(&mut self.nodes, self.places, leaf);
    }

    /// A place whose number is not below a bound: where there are 2^k places, the first one.
    pub(crate) fn not_below(&self, bound: u32) -> Option<u32>
        ensures found { IsNotBelow self.now bound result }
        ensures first { (k : ℕ) → length self.now ≡ 2 ^ k → IsFirstNotBelow self.now bound result }
    {
        if self.nodes[1] < bound {
            return None;
        }
        Some((leaf_not_below(&self.nodes, self.places, bound) - self.places) as u32)
    }
}

/// Mends the way from a leaf to the root.
fn mend(nodes: &mut [u32], places: usize, leaf: usize)
    requires but { IsTournamentBut places nodes.old (leaf / 2) }
    requires some { 1 ≤ leaf }
    requires inside { leaf < 2 * places }
    ensures mended { IsTournament places nodes.new }
    ensures view { drop places nodes.new ≡ drop places nodes.old }
{
    let mut node = leaf;
    while node > 1 {
        node /= 2;
        nodes[node] = nodes[2 * node].max(nodes[2 * node + 1]);
    }
}

/// A leaf whose number is not below a bound, where that of the root is not: where all leaves are
/// equally deep, the first one.
fn leaf_not_below(nodes: &[u32], places: usize, bound: u32) -> usize
    requires tournament { IsTournament places nodes.now }
    requires root { bound ≤ slice_index nodes.now 1 }
    ensures leaf { places ≤ result }
    ensures inside { result < 2 * places }
    ensures won { bound ≤ slice_index nodes.now result }
    ensures first { (k : ℕ) → places ≡ 2 ^ k → (leaf : ℕ) → places ≤ leaf → leaf < result → slice_index nodes.now leaf < bound }
{
    let mut node = 1;
    while node < places {
        node *= 2;
        if nodes[node] < bound {
            node += 1;
        }
    }
    node
}
