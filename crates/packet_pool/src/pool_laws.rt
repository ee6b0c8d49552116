//! Laws of what lives in the guest pool: each is the contract of a function that does nothing.

ghost use Rattle.packet_pool.specs.Laws.{LiveLaws, FreeLaws, RoomLaws};

/// In each state that is reached no two things that live share an address, and each lies in the
/// guest pool; no handle is given twice.
pub fn live_laws()
    ensures { LiveLaws }
{}

/// What is freed no longer lives; a packet on loan is not freed, nor a pool with a descriptor out.
pub fn free_laws()
    ensures { FreeLaws }
{}

/// What a free range is, and which is the first.
pub fn room_laws()
    ensures { RoomLaws }
{}
