//! The regions beside the image, added to memory.

ghost use Rattle.std.specs.Prelude.{◌≡◌, ℕ, ◌≤◌, OnOk, OnErr, None, true, take};
ghost use Rattle.std.specs.FinMap as map;
ghost use Rattle.std.specs.Option.{option_or};
ghost use Rattle.guest_map.specs.Regions.{rising};
ghost use Rattle.guest_map.specs.Blank.{blank_in, blank_cells, HasFirstRegions};

use crate::regions::{REGIONS, Region};
use nd_base::OutOfMemory;
use nd_mem::{Memory, RegionRefusal, Rights, region_laws};
use std::alloc::Global;

/// The rights to the regions beside the image.
const READ_WRITE: Rights = Rights {
    read: true,
    write: true,
    execute: false,
};

/// Adds regions of zeros to memory that has nothing where they are.
fn add_regions(alloc: Global, regions: &[Region], memory: &mut Memory) -> Result<(), OutOfMemory>
    requires free { (a : ℕ) → 0x81000000 ≤ a → map.get memory.old a ≡ None }
    requires rise { rising 0x81000000 0xF0000000 regions.now ≡ true }
    ensures ok { OnOk result ((a : ℕ) → map.get memory.new a ≡ option_or (map.get memory.old a) (blank_in regions.now a)) }
    ensures err { OnErr result (HasFirstRegions regions.now (map.get memory.old) (map.get memory.new)) }
{
    region_laws();
    for region in regions {
        match memory.add_region(alloc, region.first, region.length, READ_WRITE) {
            Ok(()) => {}
            Err(RegionRefusal::OutOfMemory) => return Err(OutOfMemory),
            Err(RegionRefusal::High) => unreachable!(),
            Err(RegionRefusal::Overlaps(_)) => unreachable!(),
        }
    }
    Ok(())
}

/// Adds all regions to memory that has nothing but an image. Where memory is wanted, the first
/// regions may stand.
pub fn map_regions(alloc: Global, memory: &mut Memory) -> Result<(), OutOfMemory>
    requires { (a : ℕ) → 0x81000000 ≤ a → map.get memory.old a ≡ None }
    ensures ok { OnOk result ((a : ℕ) → map.get memory.new a ≡ option_or (map.get memory.old a) (blank_cells a)) }
    ensures err { OnErr result (HasFirstRegions REGIONS (map.get memory.old) (map.get memory.new)) }
{
    add_regions(alloc, &REGIONS, memory)
}
