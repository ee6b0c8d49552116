//! What becomes of loans.

ghost use Rattle.std.specs.Prelude.{◌≡◌, true, [], OnOk, OnErr, cond};
ghost use Rattle.nd_base.specs.declared.numbers.LoanNo.{LoanNo};
ghost use Rattle.call_log.specs.declared.entry.Entry.TheVariants as entries;
ghost use Rattle.owner_machine.specs.Machine.{has_case, after};
ghost use Rattle.owner_machine.specs.Loans.{behind_back, lent};
ghost use Rattle.owner_rules.specs.State.{owner_of};

use nd_base::{AdapterNo, BindingNo, LoanNo, OutOfMemory};
use owner_machine::{Loan, Next};
use owner_rules::{Ledger, marks};

/// The loan of a packet that an adapter indicates to these holders.
fn lent(ledger: &Ledger, adapter: AdapterNo, holders: &[BindingNo], copied: bool) -> Loan
    ensures { result ≡ lent (owner_of ledger.now) adapter holders.now copied }
{
    let place = ledger.lent_place(adapter.0, holders, copied);
    let holders = if copied { [false; 8] } else { marks(holders) };
    Loan {
        adapter,
        holders,
        place,
    }
}

/// An adapter indicates a packet.
pub(crate) fn indicate(
    ledger: &mut Ledger,
    adapter: AdapterNo,
    loan: LoanNo,
    holders: &[BindingNo],
    copied: bool,
) -> Result<(), OutOfMemory>
    ensures ok { OnOk result (owner_of ledger.new ≡ after (owner_of ledger.old) (entries.Indicate adapter loan [] holders.now copied)) }
    ensures err { OnErr result (owner_of ledger.new ≡ owner_of ledger.old) }
{
    let row = lent(ledger, adapter, holders, copied);
    ledger.loans.push(row)?;
    ledger.next = Next::Free;
    Ok(())
}

/// A driver returns its part of a loan.
#[tactic(auto, using(crate::proofs::Admits::return_away))]
pub(crate) fn give_back(ledger: &mut Ledger, driver: BindingNo, loan: LoanNo)
    requires { has_case (owner_of ledger.old) (entries.Return driver loan) ≡ true }
    ensures { owner_of ledger.new ≡ after (owner_of ledger.old) (entries.Return driver loan) }
{
    ledger.loans.give_back(loan.0, driver.0);
    ledger.next = Next::Free;
}

fn behind_back(next: Next) -> Next
    ensures { result ≡ behind_back next }
{
    match next {
        Next::Tail { adapter } => Next::Tail { adapter },
        _ => Next::Free,
    }
}

/// A loan is back at its miniport.
pub(crate) fn send_home(ledger: &mut Ledger, loan: LoanNo)
    ensures { owner_of ledger.new ≡ after (owner_of ledger.old) (entries.Back loan true) }
{
    ledger.loans.send_home(loan.0);
    ledger.next = behind_back(ledger.next);
}
