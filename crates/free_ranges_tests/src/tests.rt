ghost use Rattle.std.specs.Prelude.{◌≤◌, ◌^◌};

use free_ranges::{FreeRanges, range_laws};
use std::alloc::Global;

/// How many ranges of one unit can be taken, one after the other, in a row of so many units.
fn singles(alloc: Global, units: u32) -> Option<u32>
    requires some { 1 ≤ units }
    requires small { units ≤ 2 ^ 30 }
{
    let mut ranges = FreeRanges::new(alloc, units).ok()?;
    for taken in 0..units {
        if ranges.take(1).is_none() {
            return Some(taken);
        }
    }
    if ranges.take(1).is_some() {
        return None;
    }
    Some(units)
}

/// Whether a range of a full row is free again once it is given back, and no longer one is.
fn comes_back(alloc: Global, units: u32) -> Option<bool>
    requires some { 1 ≤ units }
    requires small { units ≤ 2 ^ 30 }
{
    range_laws();
    let mut ranges = FreeRanges::new(alloc, units).ok()?;
    let first = ranges.take(units)?;
    let full = ranges.fit(1).is_none();
    ranges.give_back(first, units);
    Some(full && ranges.fit(units) == Some(0))
}

/// Whether two neighbours that are given back are one range, whichever comes first.
fn joins(alloc: Global, left_first: bool) -> Option<bool> {
    range_laws();
    let mut ranges = FreeRanges::new(alloc, 8).ok()?;
    let left = ranges.take(3)?;
    let right = ranges.take(5)?;
    if left_first {
        ranges.give_back(left, 3);
        ranges.give_back(right, 5);
    } else {
        ranges.give_back(right, 5);
        ranges.give_back(left, 3);
    }
    Some(left == 0 && right == 3 && ranges.take(8) == Some(0))
}

#[test]
fn each_unit_is_taken_once(rt: HostRuntime) {
    let alloc = rt.alloc();
    let counts = singles(alloc, 1) == Some(1)
        && singles(alloc, 7) == Some(7)
        && singles(alloc, 4096) == Some(4096);
    assert!(rt; counts);
}

#[test]
fn a_large_row_is_filled(rt: HostRuntime) {
    assert!(rt; singles(rt.alloc(), 524_288) == Some(524_288));
}

#[test]
fn what_is_given_back_fits_again(rt: HostRuntime) {
    let alloc = rt.alloc();
    let back = comes_back(alloc, 1) == Some(true)
        && comes_back(alloc, 5) == Some(true)
        && comes_back(alloc, 524_288) == Some(true);
    assert!(rt; back);
}

#[test]
fn neighbours_join(rt: HostRuntime) {
    let joined = joins(rt.alloc(), true) == Some(true) && joins(rt.alloc(), false) == Some(true);
    assert!(rt; joined);
}

#[test]
fn a_row_has_no_longer_range(rt: HostRuntime) {
    let none = match FreeRanges::new(rt.alloc(), 8) {
        Ok(ranges) => ranges.fit(9).is_none(),
        Err(_) => false,
    };
    assert!(rt; none);
}
