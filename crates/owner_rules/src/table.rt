//! The table: what each kind of entry needs, and the rule that it breaks where that is not so.

ghost use Rattle.std.specs.Prelude.{◌≡◌};
ghost use Rattle.owner_machine.specs.Machine.{has_case, rule_of, ends_with, last_rule, rule_against};
ghost use Rattle.owner_rules.specs.State.{owner_of};

use crate::ledger::Ledger;
use crate::logic::unless;
use call_log::Entry;
use owner_rows::is_away;

/// NDIS_STATUS_PENDING.
const PENDING: u32 = 0x103;

/// A completion with PENDING.
const ENDING_RULE: u8 = 10;

/// The rule that a kind breaks where it has no case.
fn rule_of(e: &Entry) -> u8
    ensures { result ≡ rule_of e.now }
{
    match e {
        Entry::Send { .. }
        | Entry::Tag { .. }
        | Entry::Cancel { .. }
        | Entry::Hand { .. }
        | Entry::Requeue { .. }
        | Entry::Complete { .. }
        | Entry::Late { .. } => 1,
        Entry::Indicate { .. } | Entry::Return { .. } | Entry::Back { .. } => 2,
        Entry::Ask { .. } | Entry::HandAsk { .. } | Entry::Answer { .. } => 3,
        Entry::ResetBegin { .. } | Entry::ResetEnd { .. } => 4,
        _ => 9,
    }
}

/// The rule against a status that ends something.
fn ends_with(status: u32) -> Option<u8>
    ensures { result ≡ ends_with status }
{
    unless(status != PENDING, ENDING_RULE)
}

impl Ledger {
    /// Whether a kind has what it needs, but for its status and the number of loans.
    fn has_case(&self, e: &Entry) -> bool
        ensures { result ≡ has_case (owner_of self.now) e.now }
    {
        match e {
            Entry::Bind { driver, adapter } => self.may_bind(driver.0, adapter.0),
            Entry::Unbind { driver } => self.may_unbind(driver.0),
            Entry::Send {
                driver,
                packet,
                bytes,
            } => self.may_send(driver.0, packet.0, bytes.len()),
            Entry::Tag { packet, id } => self.may_tag(packet.0, *id),
            Entry::Cancel { driver, id } => self.may_cancel(driver.0, *id),
            Entry::Event {
                driver,
                bytes,
                taken,
                ..
            } => self.may_signal(driver.0, bytes.len(), *taken),
            Entry::Hand { packet } => self.may_hand(packet.0),
            Entry::Requeue { packet } => self.may_requeue(packet.0),
            Entry::Complete { packet, .. } => self.may_complete(packet.0),
            Entry::Late { packet } => self.may_be_late(packet.0),
            Entry::Indicate {
                adapter,
                loan,
                bytes,
                holders,
                copied,
            } => self.may_indicate(
                adapter.0,
                loan.0,
                bytes.as_slice(),
                holders.as_slice(),
                *copied,
            ),
            Entry::Return { driver, loan } => self.is_held_by(loan.0, driver.0),
            Entry::Back { loan, failed } => self.may_go_home(loan.0, *failed),
            Entry::Ask {
                driver,
                request,
                ..
            } => self.may_ask(driver.0, request.0),
            Entry::HandAsk { request } => self.may_hand_ask(request.0),
            Entry::Answer { request, .. } => self.may_answer(request.0),
            Entry::ResetBegin { adapter } => self.may_begin_reset(adapter.0),
            Entry::ResetEnd { adapter, .. } => self.may_end_reset(adapter.0),
            Entry::Enter {
                adapter,
                context,
                handler,
                ..
            } => self.may_enter(*adapter, context.0, *handler),
            Entry::Leave { context, .. } => self.is_at_work(context.0),
            Entry::Turn { context, .. } => self.is_at_work(context.0),
            Entry::Fault { context, .. } => self.is_at_work(context.0),
            Entry::Call { context, .. } => self.is_at_work(context.0),
            Entry::Reply { context, .. } => self.may_be_answered(context.0),
            Entry::Spin { context, .. } => self.is_calling(context.0),
            Entry::Port { adapter, .. } => self.stands(adapter.0),
            Entry::WireOut { adapter, .. } => self.stands(adapter.0),
            Entry::Stop { adapter, .. } => self.stands(adapter.0),
            _ => true,
        }
    }

    /// The rule that is left to break where a kind has a case.
    fn last_rule(&self, e: &Entry) -> Option<u8>
        ensures { result ≡ last_rule (owner_of self.now) e.now }
    {
        match e {
            Entry::Complete { status, .. } => ends_with(status.0),
            Entry::Answer { status, .. } => ends_with(status.0),
            Entry::ResetEnd { status, .. } => ends_with(status.0),
            Entry::Indicate {
                adapter,
                holders,
                copied,
                ..
            } => {
                let place = self.lent_place(adapter.0, holders.as_slice(), *copied);
                self.has_room(adapter.0, is_away(place))
            }
            _ => None,
        }
    }

    /// The rule that an entry breaks, if it breaks one.
    pub fn rule_against(&self, e: &Entry) -> Option<u8>
        ensures { result ≡ rule_against (owner_of self.now) e.now }
    {
        let served = self.is_served(e);
        let fits = self.has_case(e);
        if served && fits {
            self.last_rule(e)
        } else {
            Some(rule_of(e))
        }
    }
}
