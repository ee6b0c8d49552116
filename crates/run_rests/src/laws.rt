//! What comes next may stand: the contract of a function that does nothing.

ghost use Rattle.run_rests.specs.Laws.{DueLaws};

use owed_handlers::owed_laws;

/// What comes next may stand where nothing must.
pub fn due_laws()
    ensures { DueLaws }
{
    owed_laws();
}
