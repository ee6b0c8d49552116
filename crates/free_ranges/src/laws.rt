//! Laws of free ranges, as the contract of a function that does nothing.

ghost use Rattle.free_ranges.specs.Laws.{RangeLaws};

/// Two ranges that are taken share no unit; what is taken stays so until it is given back, and what
/// is given back can be taken.
pub fn range_laws()
    ensures { RangeLaws }
{}
