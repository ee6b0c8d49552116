//! What becomes of requests.

ghost use Rattle.std.specs.Prelude.{◌≡◌, true, zero, [], OnOk, OnErr, IfOk, Some, slice_get};
ghost use Rattle.call_log.specs.declared.entry.Entry.TheVariants as entries;
ghost use Rattle.owner_machine.specs.Machine.{has_case, after};
ghost use Rattle.owner_machine.specs.Requests.{first_place, ask_enter, learnt_at, behind_answer};
ghost use Rattle.owner_rules.specs.State.{owner_of};

use crate::driver_moves::learn;
use call_log::Question;
use nd_base::{AdapterNo, BindingNo, OutOfMemory, RequestNo, Status};
use owner_machine::{Driver, Next, Request, RequestPlace};
use owner_rows::Requests;
use owner_rules::Ledger;
use std::alloc::Global;

/// A copy of a question.
fn copied(question: &Question, alloc: Global) -> Result<Question, OutOfMemory>
    ensures { IfOk result (λ copy. copy ≡ question.now) }
{
    match question {
        Question::Query { oid, length } => Ok(Question::Query {
            oid: *oid,
            length: *length,
        }),
        Question::Set { oid, bytes } => Ok(Question::Set {
            oid: *oid,
            bytes: bytes.copied(alloc)?,
        }),
    }
}

/// Where a request is that is refused with this status, or with none.
fn first_place(refused: Option<u32>) -> RequestPlace
    ensures { result ≡ first_place refused }
{
    match refused {
        None => RequestPlace::Asked,
        Some(_) => RequestPlace::Refused,
    }
}

/// A driver asks a question.
#[tactic(auto, using(crate::proofs::Admits::first_open))]
pub(crate) fn ask(
    ledger: &mut Ledger,
    alloc: Global,
    driver: BindingNo,
    request: RequestNo,
    question: &Question,
) -> Result<(), OutOfMemory>
    ensures ok { OnOk result (owner_of ledger.new ≡ after (owner_of ledger.old) (entries.Ask driver request question.now)) }
    ensures err { OnErr result (owner_of ledger.new ≡ owner_of ledger.old) }
{
    let adapter = ledger.adapter_of(driver.0);
    let place = first_place(ledger.refused_with(adapter, question));
    let question = copied(question, alloc)?;
    ledger.requests.push(Request {
        driver,
        adapter: AdapterNo(adapter),
        question,
        place,
        hand: 0,
    })?;
    ledger.next = Next::Asked { request };
    Ok(())
}

fn ask_enter(next: Next) -> u64
    ensures { result ≡ ask_enter next }
{
    match next {
        Next::HandingAsk { enter, .. } => enter,
        _ => 0,
    }
}

/// A request is handed to its miniport.
#[tactic(auto, using(crate::proofs::Admits::hand_ask_open))]
pub(crate) fn hand_ask(ledger: &mut Ledger, request: RequestNo)
    requires { has_case (owner_of ledger.old) (entries.HandAsk request) ≡ true }
    ensures { owner_of ledger.new ≡ after (owner_of ledger.old) (entries.HandAsk request) }
{
    ledger.requests.hand(request.0, ask_enter(ledger.next));
    ledger.next = Next::Free;
}

/// The driver of a request that was answered with success learns what it set.
fn learn_from(
    requests: &Requests,
    drivers: &mut Vec<Driver>,
    alloc: Global,
    r: u64,
) -> Result<(), OutOfMemory>
    ensures ok { OnOk result (drivers.new.items ≡ learnt_at zero (slice_get requests.now r) drivers.old.items) }
    ensures err { OnErr result (drivers.new.items ≡ drivers.old.items) }
{
    match requests.get(r) {
        Some(request) => learn(drivers, alloc, request.driver.0, &request.question),
        None => Ok(()),
    }
}

fn learn_by_status(
    requests: &Requests,
    drivers: &mut Vec<Driver>,
    alloc: Global,
    r: u64,
    status: u32,
) -> Result<(), OutOfMemory>
    ensures ok { OnOk result (drivers.new.items ≡ learnt_at status (slice_get requests.now r) drivers.old.items) }
    ensures err { OnErr result (drivers.new.items ≡ drivers.old.items) }
{
    match status {
        0 => learn_from(requests, drivers, alloc, r),
        _ => Ok(()),
    }
}

fn behind_answer(next: Next) -> Next
    ensures { result ≡ behind_answer next }
{
    match next {
        Next::Tail { adapter } => Next::Tail { adapter },
        _ => Next::Free,
    }
}

/// A request ends, and no driver learns of it.
pub(crate) fn end_request(ledger: &mut Ledger, request: RequestNo)
    ensures { owner_of ledger.new ≡ after (owner_of ledger.old) (entries.Answer request (record { 0 = 1 }) []) }
{
    ledger.requests.answer(request.0);
    ledger.next = behind_answer(ledger.next);
}

/// A request is answered.
pub(crate) fn answer(
    ledger: &mut Ledger,
    alloc: Global,
    request: RequestNo,
    status: Status,
) -> Result<(), OutOfMemory>
    ensures ok { OnOk result (owner_of ledger.new ≡ after (owner_of ledger.old) (entries.Answer request status [])) }
    ensures err { OnErr result (owner_of ledger.new ≡ owner_of ledger.old) }
{
    learn_by_status(
        &ledger.requests,
        &mut ledger.drivers,
        alloc,
        request.0,
        status.0,
    )?;
    end_request(ledger, request);
    Ok(())
}
