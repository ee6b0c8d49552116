//! What is on loan in every state of a run: each law is the contract of a function that does nothing.

ghost use Rattle.loan_facts.specs.Lent.{BackIsLive, LentLives};

use legal_run::entry_laws;

/// What a loan lends is out of its pool and marked as on loan for as long as the loan is away, no two
/// such loans lend the same packet, and what is indicated is on no loan.
pub fn what_is_lent_lives()
    ensures { LentLives }
{
    entry_laws();
}

/// Where a loan may go home its packet is on loan still.
pub fn back_is_live()
    ensures { BackIsLive }
{
    entry_laws();
}
