//! What a row's place alone says.

ghost use Rattle.std.specs.Prelude.{◌≡◌};
ghost use Rattle.owner_machine.specs.Packets.{is_out, in_slot, is_queue, is_miniport, is_refused, is_aborted};
ghost use Rattle.owner_machine.specs.Loans.{is_away, is_due, is_lent};
ghost use Rattle.owner_machine.specs.Requests.{is_open, is_asked, is_handed, is_turned_away};

use owner_machine::{LoanPlace, Place, RequestPlace};

/// A packet that is not completed to its driver yet.
pub fn is_out(place: Place) -> bool
    ensures { result ≡ is_out place }
{
    matches!(place, Place::Queue | Place::Miniport | Place::Refused)
}

/// A packet whose send slot is in use.
pub fn in_slot(place: Place) -> bool
    ensures { result ≡ in_slot place }
{
    !matches!(place, Place::Done)
}

/// A packet in its adapter's queue.
pub fn is_queue(place: Place) -> bool
    ensures { result ≡ is_queue place }
{
    matches!(place, Place::Queue)
}

/// A packet that the miniport holds.
pub fn is_miniport(place: Place) -> bool
    ensures { result ≡ is_miniport place }
{
    matches!(place, Place::Miniport)
}

/// A packet that was refused.
pub fn is_refused(place: Place) -> bool
    ensures { result ≡ is_refused place }
{
    matches!(place, Place::Refused)
}

/// A packet that a reset aborted.
pub fn is_aborted(place: Place) -> bool
    ensures { result ≡ is_aborted place }
{
    matches!(place, Place::Aborted)
}

/// A loan that is not home.
pub fn is_away(place: LoanPlace) -> bool
    ensures { result ≡ is_away place }
{
    !matches!(place, LoanPlace::Home)
}

/// A loan that waits for its miniport.
pub fn is_due(place: LoanPlace) -> bool
    ensures { result ≡ is_due place }
{
    matches!(place, LoanPlace::Due)
}

/// A loan with holders.
pub fn is_lent(place: LoanPlace) -> bool
    ensures { result ≡ is_lent place }
{
    matches!(place, LoanPlace::Out)
}

/// A request that is not answered.
pub fn is_open(place: RequestPlace) -> bool
    ensures { result ≡ is_open place }
{
    !matches!(place, RequestPlace::Answered)
}

/// A request that waits to be handed.
pub fn is_asked(place: RequestPlace) -> bool
    ensures { result ≡ is_asked place }
{
    matches!(place, RequestPlace::Asked)
}

/// A request that the miniport has.
pub fn is_handed(place: RequestPlace) -> bool
    ensures { result ≡ is_handed place }
{
    matches!(place, RequestPlace::Handed)
}

/// A request that was refused.
pub fn is_turned_away(place: RequestPlace) -> bool
    ensures { result ≡ is_turned_away place }
{
    matches!(place, RequestPlace::Refused)
}
