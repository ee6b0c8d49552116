//! Laws of guest memory: each is the contract of a function that does nothing. A caller that needs
//! one calls the function, and takes the law from its contract.

ghost use Rattle.nd_mem.specs.Laws.{LookUpLaws, WriteLaws, ReadLaws, FaultLaws, FetchLaws, RegionLaws};

/// Two memories with one look-up are one; the map of a look-up has that look-up.
pub fn look_up_laws()
    ensures { LookUpLaws }
{}

/// What a write leaves: the bytes, the rights as they were, and all else as it was.
pub fn write_laws()
    ensures { WriteLaws }
{}

/// What a read gives: the bytes at the addresses; what was written there, or what was there before
/// a write elsewhere.
pub fn read_laws()
    ensures { ReadLaws }
{}

/// The fault of an access is that of its first bad address; a write changes none.
pub fn fault_laws()
    ensures { FaultLaws }
{}

/// A fetch gives the longest front that can be executed.
pub fn fetch_laws()
    ensures { FetchLaws }
{}

/// What a new region has, which accesses it allows, and where it is refused.
pub fn region_laws()
    ensures { RegionLaws }
{}
