//! Protocol drivers: what one does is a function of what it was told.

use crate::events::{Act, Outcome};
use crate::packet::Loan;
use nd_base::OutOfMemory;

/// A protocol driver. Contracts see its state as plain data, and what it does as functions of that
/// (`meaning`), which keep laws (`lawful`): so a loop that does what it says comes to an end.
pub trait Protocol {
    ghost use Rattle.std.specs.Prelude.{◌≡◌, [], ◌∷◌, MatchResult, MatchOption};
    ghost use Rattle.binding.specs.Meaning.{Meaning, Lawful};

    // The functions of its state: the loans that it keeps, how many commands it still gives, what it may give next, its act, and the states after.
    ghost meaning: { Meaning Self };

    /// What it wants next. An error is want of memory, and changes nothing.
    fn next(&mut self) -> Result<Act, OutOfMemory>
        ensures { MatchResult result (λ act. (act ≡ meaning.act self.old) × (self.new ≡ meaning.then self.old)) (λ _. self.new ≡ self.old) };

    /// Tells it an outcome. An error is want of memory: it hands the outcome back and changes nothing.
    fn told(&mut self, outcome: Outcome) -> Result<(), Outcome>
        ensures { MatchResult result (λ _. self.new ≡ meaning.told self.old outcome) (λ back. (back ≡ outcome) × (self.new ≡ self.old)) };

    /// Hands out a loan that it keeps, or none where it keeps none. It takes no memory.
    fn give_up(&mut self) -> Option<Loan>
        ensures { MatchOption result ((meaning.kept self.old ≡ []) × (meaning.kept self.new ≡ [])) (λ loan. meaning.kept self.old ≡ loan ∷ meaning.kept self.new) };

    ghost lawful: { Lawful meaning };
}
