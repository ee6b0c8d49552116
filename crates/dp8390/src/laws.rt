//! Laws of the card: each is the contract of a function that does nothing.

ghost use Rattle.dp8390.specs.Laws.{LineLaws, ReadBackLaws, ArrivalLaws, RingLaws, SendLaws, RemoteLaws, HashLaws, WholeLaws};

/// The interrupt line is up exactly where the interrupt status and the mask share a bit.
pub fn line_laws()
    ensures { LineLaws }
{}

/// A register reads what was written to it.
pub fn read_back_laws()
    ensures { ReadBackLaws }
{}

/// What an arriving frame leaves as it was, and that CURR never meets BNRY.
pub fn arrival_laws()
    ensures { ArrivalLaws }
{}

/// Where the bytes of a stored frame stand, and that other memory is as before.
pub fn ring_laws()
    ensures { RingLaws }
{}

/// What is sent, and when nothing is.
pub fn send_laws()
    ensures { SendLaws }
{}

/// How the address of a remote DMA moves.
pub fn remote_laws()
    ensures { RemoteLaws }
{}

/// Hashes of multicast addresses.
pub fn hash_laws()
    ensures { HashLaws }
{}

/// What no list of accesses and arrivals changes.
pub fn whole_laws()
    ensures { WholeLaws }
{}
