//! Pools with their descriptors that are not out.

ghost use Rattle.std.specs.Prelude.{◌≡◌, ℕ};
ghost use Rattle.packet_pool.specs.KeptPools.{AreSized, HasIdle, FindsIdle, TakesPlace, IsOutAt, GivesPlace, TellsWhole};

use crate::guest_row::{descriptor_size, is_same};
use crate::states::{Kind, Pool, PoolRefusal};
use free_ranges::FreeRanges;
use std::collections::BTreeMap;

/// A pool, and which of its descriptors are not out, by their number in it.
#[derive(Drop)]
pub(crate) struct KeptPool {
    pub(crate) pool: Pool,
    pub(crate) idle: FreeRanges,
}

/// A descriptor that is not out: its number in its pool, and its address.
#[derive(Clone, Copy)]
pub(crate) struct Idle {
    pub(crate) place: u32,
    pub(crate) at: u32,
}

/// A descriptor of a pool of this kind that is not out.
pub(crate) fn idle_place(
    pools: &BTreeMap<u32, KeptPool>,
    kind: Kind,
    handle: u32,
) -> Result<Idle, PoolRefusal>
    requires { AreSized pools.now }
    ensures { FindsIdle pools.now kind handle result }
{
    let Some(kept) = pools.get(&handle) else {
        return Err(PoolRefusal::NoPool);
    };
    if !is_same(kept.pool.kind, kind) {
        return Err(PoolRefusal::NoPool);
    }
    let Some(place) = kept.idle.fit(1) else {
        return Err(PoolRefusal::PoolFull);
    };
    let at = kept.pool.first.0 + place * descriptor_size(kind);
    Ok(Idle { place, at })
}

/// Takes a descriptor that is not out.
pub(crate) fn take_place(pools: &mut BTreeMap<u32, KeptPool>, handle: u32, place: u32)
    requires { HasIdle pools.old handle place }
    ensures { TakesPlace pools.old pools.new handle place }
{
    match pools.get_mut(&handle) {
        Some(kept) => kept.idle.take_at(place, 1),
        None => unreachable!(),
    }
}

/// Gives a descriptor back that is out.
pub(crate) fn give_place(pools: &mut BTreeMap<u32, KeptPool>, handle: u32, at: u32)
    requires { IsOutAt pools.old handle at }
    ensures { GivesPlace pools.old pools.new handle at }
{
    match pools.get_mut(&handle) {
        Some(kept) => {
            let place = (at - kept.pool.first.0) / descriptor_size(kept.pool.kind);
            kept.idle.give_back(place, 1);
        }
        None => unreachable!(),
    }
}

/// Whether this is a pool of which no descriptor is out.
pub(crate) fn is_whole(pools: &BTreeMap<u32, KeptPool>, handle: u32) -> bool
    requires { AreSized pools.now }
    ensures { TellsWhole pools.now handle result }
{
    match pools.get(&handle) {
        Some(kept) => kept.idle.fit(kept.pool.count).is_some(),
        None => false,
    }
}
