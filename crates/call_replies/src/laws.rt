//! Laws of what lives in the guest pool.

ghost use Rattle.call_replies.specs.Undo.{UndoLaws};

use packet_pool::room_laws;

/// A block that is made and freed at once, and a descriptor that is allocated and freed at once,
/// leave all as it was. (This is a law: it does nothing.)
pub fn undo_laws()
    ensures { UndoLaws }
{
    room_laws();
}
