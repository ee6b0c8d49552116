//! The loan that goes home.

ghost use Rattle.std.specs.Prelude.{◌≡◌, ◌∷◌, [], count_by, is_some, slice_index_or, true, IfNone, IfSome};
ghost use Rattle.owner_machine.specs.Loans.{due_of};
ghost use Rattle.legal_run.specs.State.{State};
ghost use Rattle.legal_run.specs.Enters.{loan_named};

use nd_base::AdapterNo;
use owner_book::{Book, WhichLoans};

/// The descriptor that a loan lent, or 0.
fn descriptor_of(lent: &[u32], j: u64) -> u32
    ensures { result ≡ slice_index_or lent.now j 0 }
{
    match lent.get(j as usize) {
        Some(descriptor) => *descriptor,
        None => 0,
    }
}

/// The descriptor of the first loan of an adapter that is due, if one is. The descriptors are given by
/// a loan's number.
#[tactic(auto, using(crate::proofs::Loans::home_named, crate::proofs::Loans::none_due))]
pub fn loan_home(book: &Book, lent: &[u32], a: AdapterNo) -> Option<u32>
    ghost s: { State }
    requires owner { book.now ≡ s.owner }
    requires lent { lent.now ≡ s.lent }
    ensures some { IfSome result (λ descriptor. is_some (loan_named s a.0 (0 ∷ descriptor ∷ [])) ≡ true) }
    ensures none { IfNone result (count_by (due_of a.0) s.owner.loans ≡ 0) }
{
    match book.first_loan(WhichLoans::DueOf(a.0)) {
        Some(j) => Some(descriptor_of(lent, j)),
        None => None,
    }
}
