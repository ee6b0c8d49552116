//! Where a run may be cut.

ghost use Rattle.run_ends.specs.Ending.{CutLaws};

/// A run that has settled may be cut; to a piece that has written nothing yet it is lost as it is.
pub fn cut_laws()
    ensures { CutLaws }
{}
