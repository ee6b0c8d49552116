//! Laws of the memory map: each is the contract of a function that does nothing.

ghost use Rattle.guest_map.specs.Laws.{ConstantsAreTheMap, RegionsAreApart, PlacesLieInRegions, PlacesAreApart, SlotsAreHigh, HandlesAreOpaque, RegionsAreBlank};

use nd_mem::fault_laws;

/// The constants are the map's.
pub fn constants_are_the_map()
    ensures { ConstantsAreTheMap }
{}

/// The regions are apart, behind the image and below the slots.
pub fn regions_are_apart()
    ensures { RegionsAreApart }
{}

/// Each named place lies in its region.
pub fn places_lie_in_regions()
    ensures { PlacesLieInRegions }
{}

/// Each named place is apart from the others of its kind.
pub fn places_are_apart()
    ensures { PlacesAreApart }
{}

/// Slots stand above all memory, and no two have one address.
pub fn slots_are_high()
    ensures { SlotsAreHigh }
{}

/// No region and no slot stands at a handle.
pub fn handles_are_opaque()
    ensures { HandlesAreOpaque }
{}

/// The regions have zeros before anything runs, and nothing else is there.
pub fn regions_are_blank()
    ensures { RegionsAreBlank }
{
    fault_laws();
}
