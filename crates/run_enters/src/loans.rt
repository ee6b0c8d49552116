//! The loan that a MiniportReturnPacket is entered for.

ghost use Rattle.std.specs.Prelude.{◌≡◌, ◌==◌, ◌∷◌, [], Some, is_some, slice_index_or, true};
ghost use Rattle.import_answers.specs.World.{word};
ghost use Rattle.owner_machine.specs.Loans.{due_of};
ghost use Rattle.owner_machine.specs.State.{at};
ghost use Rattle.legal_run.specs.State.{State};
ghost use Rattle.legal_run.specs.Enters.{loan_named};

use nd_base::{AdapterNo, LoanNo};
use owner_book::{Book, WhichLoans};
use owner_machine::LoanPlace;

/// The second word, or 0.
pub(crate) fn second_word(words: &[u32]) -> u32
    ensures { result ≡ word words.now 2 }
{
    match words.get(1) {
        Some(word) => *word,
        None => 0,
    }
}

/// Whether a loan of an adapter is due.
fn is_due(book: &Book, a: AdapterNo, j: u64) -> bool
    ensures { result ≡ at (due_of a.0) book.now.loans j }
{
    match book.loan(LoanNo(j)) {
        Some(loan) => matches!(loan.place, LoanPlace::Due) && loan.adapter.0 == a.0,
        None => false,
    }
}

/// Whether a loan lent this descriptor.
fn lends(lent: &[u32], j: u64, descriptor: u32) -> bool
    ensures { result ≡ (slice_index_or lent.now j 0 == descriptor) }
{
    match lent.get(j as usize) {
        Some(other) => *other == descriptor,
        None => descriptor == 0,
    }
}

/// The first loan of an adapter that is due and lent this descriptor.
pub(crate) fn loan_named(book: &Book, lent: &[u32], a: AdapterNo, descriptor: u32) -> LoanNo
    ghost s: { State }
    requires owner { book.now ≡ s.owner }
    requires lent { lent.now ≡ s.lent }
    requires some { is_some (loan_named s a.0 (0 ∷ descriptor ∷ [])) ≡ true }
    ensures { loan_named s a.0 (0 ∷ descriptor ∷ []) ≡ Some result.0 }
{
    let Some(first) = book.first_loan(WhichLoans::DueOf(a.0)) else {
        unreachable!()
    };
    for j in first..book.loans() {
        if is_due(book, a, j) && lends(lent, j, descriptor) {
            return LoanNo(j);
        }
    }
    unreachable!()
}
