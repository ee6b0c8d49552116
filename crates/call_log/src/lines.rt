//! Reading the fields of each kind of line.

ghost use Rattle.std.specs.Prelude.{◌≡◌, Some};
ghost use Rattle.log_fields.specs.Codes.{Gives};
ghost use Rattle.call_log.specs.Lines.{line, line_of, read_fields};
ghost use Rattle.call_log.specs.declared.kinds.Kind.TheVariants as kinds;

use crate::entry::Entry;
use crate::kinds::{Kind, find_kind};
use log_fields::LineRefusal;
use log_fields::fields::{
    adapter_or_none, blank, byte_string, cause, direction, fault_kind, flag, handler, holders,
    import, large, medium, name, question, small, what, width, words, writes,
};
use log_fields::scalars::{octet, word};
use nd_base::{AdapterNo, Addr, BindingNo, CtxNo, LoanNo, PacketNo, RequestNo, Status};
use std::alloc::Global;

/// The fields of a `bind` line.
#[tactic(auto, unfolding(crate::specs::Lines::line_of))]
fn bind_line(bytes: &[u8]) -> Result<(Entry, &[u8]), LineRefusal>
    ensures { Gives (λ x. (line_of x.0, x.1.now)) result (read_fields kinds.Bind bytes.now) }
{
    let (driver_read, rest) = small(bytes)?;
    let (adapter_read, rest) = small(blank(rest)?)?;
    let entry = Entry::Bind {
        driver: BindingNo(driver_read),
        adapter: AdapterNo(adapter_read),
    };
    Ok((entry, rest))
}

/// The fields of a `unbind` line.
#[tactic(auto, unfolding(crate::specs::Lines::line_of))]
fn unbind_line(bytes: &[u8]) -> Result<(Entry, &[u8]), LineRefusal>
    ensures { Gives (λ x. (line_of x.0, x.1.now)) result (read_fields kinds.Unbind bytes.now) }
{
    let (driver_read, rest) = small(bytes)?;
    let entry = Entry::Unbind {
        driver: BindingNo(driver_read),
    };
    Ok((entry, rest))
}

/// The fields of a `quiet` line.
#[tactic(auto, unfolding(crate::specs::Lines::line_of))]
fn quiet_line(bytes: &[u8]) -> Result<(Entry, &[u8]), LineRefusal>
    ensures { Gives (λ x. (line_of x.0, x.1.now)) result (read_fields kinds.Quiet bytes.now) }
{
    let (driver_read, rest) = small(bytes)?;
    let entry = Entry::Quiet {
        driver: BindingNo(driver_read),
    };
    Ok((entry, rest))
}

/// The fields of a `done` line.
#[tactic(auto, unfolding(crate::specs::Lines::line_of))]
fn done_line(bytes: &[u8]) -> Result<(Entry, &[u8]), LineRefusal>
    ensures { Gives (λ x. (line_of x.0, x.1.now)) result (read_fields kinds.Done bytes.now) }
{
    let (driver_read, rest) = small(bytes)?;
    let entry = Entry::Done {
        driver: BindingNo(driver_read),
    };
    Ok((entry, rest))
}

/// The fields of a `send` line.
#[tactic(auto, unfolding(crate::specs::Lines::line_of))]
fn send_line(alloc: Global, bytes: &[u8]) -> Result<(Entry, &[u8]), LineRefusal>
    ensures { Gives (λ x. (line_of x.0, x.1.now)) result (read_fields kinds.Send bytes.now) }
{
    let (driver_read, rest) = small(bytes)?;
    let (packet_read, rest) = large(blank(rest)?)?;
    let (bytes_read, rest) = byte_string(alloc, blank(rest)?)?;
    let entry = Entry::Send {
        driver: BindingNo(driver_read),
        packet: PacketNo(packet_read),
        bytes: bytes_read,
    };
    Ok((entry, rest))
}

/// The fields of a `hand` line.
#[tactic(auto, unfolding(crate::specs::Lines::line_of))]
fn hand_line(bytes: &[u8]) -> Result<(Entry, &[u8]), LineRefusal>
    ensures { Gives (λ x. (line_of x.0, x.1.now)) result (read_fields kinds.Hand bytes.now) }
{
    let (packet_read, rest) = large(bytes)?;
    let entry = Entry::Hand {
        packet: PacketNo(packet_read),
    };
    Ok((entry, rest))
}

/// The fields of a `requeue` line.
#[tactic(auto, unfolding(crate::specs::Lines::line_of))]
fn requeue_line(bytes: &[u8]) -> Result<(Entry, &[u8]), LineRefusal>
    ensures { Gives (λ x. (line_of x.0, x.1.now)) result (read_fields kinds.Requeue bytes.now) }
{
    let (packet_read, rest) = large(bytes)?;
    let entry = Entry::Requeue {
        packet: PacketNo(packet_read),
    };
    Ok((entry, rest))
}

/// The fields of a `late` line.
#[tactic(auto, unfolding(crate::specs::Lines::line_of))]
fn late_line(bytes: &[u8]) -> Result<(Entry, &[u8]), LineRefusal>
    ensures { Gives (λ x. (line_of x.0, x.1.now)) result (read_fields kinds.Late bytes.now) }
{
    let (packet_read, rest) = large(bytes)?;
    let entry = Entry::Late {
        packet: PacketNo(packet_read),
    };
    Ok((entry, rest))
}

/// The fields of a `complete` line.
#[tactic(auto, unfolding(crate::specs::Lines::line_of))]
fn complete_line(bytes: &[u8]) -> Result<(Entry, &[u8]), LineRefusal>
    ensures { Gives (λ x. (line_of x.0, x.1.now)) result (read_fields kinds.Complete bytes.now) }
{
    let (packet_read, rest) = large(bytes)?;
    let (status_read, rest) = word(blank(rest)?)?;
    let entry = Entry::Complete {
        packet: PacketNo(packet_read),
        status: Status(status_read),
    };
    Ok((entry, rest))
}

/// The fields of a `indicate` line.
#[tactic(auto, unfolding(crate::specs::Lines::line_of))]
fn indicate_line(alloc: Global, bytes: &[u8]) -> Result<(Entry, &[u8]), LineRefusal>
    ensures { Gives (λ x. (line_of x.0, x.1.now)) result (read_fields kinds.Indicate bytes.now) }
{
    let (adapter_read, rest) = small(bytes)?;
    let (loan_read, rest) = large(blank(rest)?)?;
    let (bytes_read, rest) = byte_string(alloc, blank(rest)?)?;
    let (holders_read, rest) = holders(alloc, blank(rest)?)?;
    let (copied_read, rest) = flag(blank(rest)?)?;
    let entry = Entry::Indicate {
        adapter: AdapterNo(adapter_read),
        loan: LoanNo(loan_read),
        bytes: bytes_read,
        holders: holders_read,
        copied: copied_read,
    };
    Ok((entry, rest))
}

/// The fields of a `return` line.
#[tactic(auto, unfolding(crate::specs::Lines::line_of))]
fn return_line(bytes: &[u8]) -> Result<(Entry, &[u8]), LineRefusal>
    ensures { Gives (λ x. (line_of x.0, x.1.now)) result (read_fields kinds.Return bytes.now) }
{
    let (driver_read, rest) = small(bytes)?;
    let (loan_read, rest) = large(blank(rest)?)?;
    let entry = Entry::Return {
        driver: BindingNo(driver_read),
        loan: LoanNo(loan_read),
    };
    Ok((entry, rest))
}

/// The fields of a `back` line.
#[tactic(auto, unfolding(crate::specs::Lines::line_of))]
fn back_line(bytes: &[u8]) -> Result<(Entry, &[u8]), LineRefusal>
    ensures { Gives (λ x. (line_of x.0, x.1.now)) result (read_fields kinds.Back bytes.now) }
{
    let (loan_read, rest) = large(bytes)?;
    let (failed_read, rest) = flag(blank(rest)?)?;
    let entry = Entry::Back {
        loan: LoanNo(loan_read),
        failed: failed_read,
    };
    Ok((entry, rest))
}

/// The fields of a `ask` line.
#[tactic(auto, unfolding(crate::specs::Lines::line_of))]
fn ask_line(alloc: Global, bytes: &[u8]) -> Result<(Entry, &[u8]), LineRefusal>
    ensures { Gives (λ x. (line_of x.0, x.1.now)) result (read_fields kinds.Ask bytes.now) }
{
    let (driver_read, rest) = small(bytes)?;
    let (request_read, rest) = large(blank(rest)?)?;
    let (question_read, rest) = question(alloc, blank(rest)?)?;
    let entry = Entry::Ask {
        driver: BindingNo(driver_read),
        request: RequestNo(request_read),
        question: question_read,
    };
    Ok((entry, rest))
}

/// The fields of a `handask` line.
#[tactic(auto, unfolding(crate::specs::Lines::line_of))]
fn hand_ask_line(bytes: &[u8]) -> Result<(Entry, &[u8]), LineRefusal>
    ensures { Gives (λ x. (line_of x.0, x.1.now)) result (read_fields kinds.HandAsk bytes.now) }
{
    let (request_read, rest) = large(bytes)?;
    let entry = Entry::HandAsk {
        request: RequestNo(request_read),
    };
    Ok((entry, rest))
}

/// The fields of a `answer` line.
#[tactic(auto, unfolding(crate::specs::Lines::line_of))]
fn answer_line(alloc: Global, bytes: &[u8]) -> Result<(Entry, &[u8]), LineRefusal>
    ensures { Gives (λ x. (line_of x.0, x.1.now)) result (read_fields kinds.Answer bytes.now) }
{
    let (request_read, rest) = large(bytes)?;
    let (status_read, rest) = word(blank(rest)?)?;
    let (bytes_read, rest) = byte_string(alloc, blank(rest)?)?;
    let entry = Entry::Answer {
        request: RequestNo(request_read),
        status: Status(status_read),
        bytes: bytes_read,
    };
    Ok((entry, rest))
}

/// The fields of a `enter` line.
#[tactic(auto, unfolding(crate::specs::Lines::line_of))]
fn enter_line(alloc: Global, bytes: &[u8]) -> Result<(Entry, &[u8]), LineRefusal>
    ensures { Gives (λ x. (line_of x.0, x.1.now)) result (read_fields kinds.Enter bytes.now) }
{
    let (adapter_read, rest) = adapter_or_none(bytes)?;
    let (context_read, rest) = small(blank(rest)?)?;
    let (handler_read, rest) = handler(blank(rest)?)?;
    let (words_read, rest) = words(alloc, blank(rest)?)?;
    let (writes_read, rest) = writes(alloc, blank(rest)?)?;
    let entry = Entry::Enter {
        adapter: adapter_read,
        context: CtxNo(context_read),
        handler: handler_read,
        words: words_read,
        writes: writes_read,
    };
    Ok((entry, rest))
}

/// The fields of a `leave` line.
#[tactic(auto, unfolding(crate::specs::Lines::line_of))]
fn leave_line(bytes: &[u8]) -> Result<(Entry, &[u8]), LineRefusal>
    ensures { Gives (λ x. (line_of x.0, x.1.now)) result (read_fields kinds.Leave bytes.now) }
{
    let (context_read, rest) = small(bytes)?;
    let (eax_read, rest) = word(blank(rest)?)?;
    let entry = Entry::Leave {
        context: CtxNo(context_read),
        eax: eax_read,
    };
    Ok((entry, rest))
}

/// The fields of a `turn` line.
#[tactic(auto, unfolding(crate::specs::Lines::line_of))]
fn turn_line(bytes: &[u8]) -> Result<(Entry, &[u8]), LineRefusal>
    ensures { Gives (λ x. (line_of x.0, x.1.now)) result (read_fields kinds.Turn bytes.now) }
{
    let (context_read, rest) = small(bytes)?;
    let (count_read, rest) = large(blank(rest)?)?;
    let entry = Entry::Turn {
        context: CtxNo(context_read),
        count: count_read,
    };
    Ok((entry, rest))
}

/// The fields of a `call` line.
#[tactic(auto, unfolding(crate::specs::Lines::line_of))]
fn call_line(alloc: Global, bytes: &[u8]) -> Result<(Entry, &[u8]), LineRefusal>
    ensures { Gives (λ x. (line_of x.0, x.1.now)) result (read_fields kinds.Call bytes.now) }
{
    let (context_read, rest) = small(bytes)?;
    let (import_read, rest) = import(blank(rest)?)?;
    let (words_read, rest) = words(alloc, blank(rest)?)?;
    let entry = Entry::Call {
        context: CtxNo(context_read),
        import: import_read,
        words: words_read,
    };
    Ok((entry, rest))
}

/// The fields of a `reply` line.
#[tactic(auto, unfolding(crate::specs::Lines::line_of))]
fn reply_line(alloc: Global, bytes: &[u8]) -> Result<(Entry, &[u8]), LineRefusal>
    ensures { Gives (λ x. (line_of x.0, x.1.now)) result (read_fields kinds.Reply bytes.now) }
{
    let (context_read, rest) = small(bytes)?;
    let (eax_read, rest) = word(blank(rest)?)?;
    let (writes_read, rest) = writes(alloc, blank(rest)?)?;
    let entry = Entry::Reply {
        context: CtxNo(context_read),
        eax: eax_read,
        writes: writes_read,
    };
    Ok((entry, rest))
}

/// The fields of a `spin` line.
#[tactic(auto, unfolding(crate::specs::Lines::line_of))]
fn spin_line(bytes: &[u8]) -> Result<(Entry, &[u8]), LineRefusal>
    ensures { Gives (λ x. (line_of x.0, x.1.now)) result (read_fields kinds.Spin bytes.now) }
{
    let (context_read, rest) = small(bytes)?;
    let (lock_read, rest) = word(blank(rest)?)?;
    let entry = Entry::Spin {
        context: CtxNo(context_read),
        lock: Addr(lock_read),
    };
    Ok((entry, rest))
}

/// The fields of a `port` line.
#[tactic(auto, unfolding(crate::specs::Lines::line_of))]
fn port_line(alloc: Global, bytes: &[u8]) -> Result<(Entry, &[u8]), LineRefusal>
    ensures { Gives (λ x. (line_of x.0, x.1.now)) result (read_fields kinds.Port bytes.now) }
{
    let (adapter_read, rest) = small(bytes)?;
    let (direction_read, rest) = direction(blank(rest)?)?;
    let (width_read, rest) = width(blank(rest)?)?;
    let (port_read, rest) = octet(blank(rest)?)?;
    let (bytes_read, rest) = byte_string(alloc, blank(rest)?)?;
    let entry = Entry::Port {
        adapter: AdapterNo(adapter_read),
        direction: direction_read,
        width: width_read,
        port: port_read,
        bytes: bytes_read,
    };
    Ok((entry, rest))
}

/// The fields of a `wirein` line.
#[tactic(auto, unfolding(crate::specs::Lines::line_of))]
fn wire_in_line(bytes: &[u8]) -> Result<(Entry, &[u8]), LineRefusal>
    ensures { Gives (λ x. (line_of x.0, x.1.now)) result (read_fields kinds.WireIn bytes.now) }
{
    let (frame_read, rest) = large(bytes)?;
    let entry = Entry::WireIn { frame: frame_read };
    Ok((entry, rest))
}

/// The fields of a `wireout` line.
#[tactic(auto, unfolding(crate::specs::Lines::line_of))]
fn wire_out_line(alloc: Global, bytes: &[u8]) -> Result<(Entry, &[u8]), LineRefusal>
    ensures { Gives (λ x. (line_of x.0, x.1.now)) result (read_fields kinds.WireOut bytes.now) }
{
    let (adapter_read, rest) = small(bytes)?;
    let (bytes_read, rest) = byte_string(alloc, blank(rest)?)?;
    let entry = Entry::WireOut {
        adapter: AdapterNo(adapter_read),
        bytes: bytes_read,
    };
    Ok((entry, rest))
}

/// The fields of a `time` line.
#[tactic(auto, unfolding(crate::specs::Lines::line_of))]
fn time_line(bytes: &[u8]) -> Result<(Entry, &[u8]), LineRefusal>
    ensures { Gives (λ x. (line_of x.0, x.1.now)) result (read_fields kinds.Time bytes.now) }
{
    let (clock_read, rest) = large(bytes)?;
    let entry = Entry::Time { clock: clock_read };
    Ok((entry, rest))
}

/// The fields of a `resetbegin` line.
#[tactic(auto, unfolding(crate::specs::Lines::line_of))]
fn reset_begin_line(bytes: &[u8]) -> Result<(Entry, &[u8]), LineRefusal>
    ensures { Gives (λ x. (line_of x.0, x.1.now)) result (read_fields kinds.ResetBegin bytes.now) }
{
    let (adapter_read, rest) = small(bytes)?;
    let entry = Entry::ResetBegin {
        adapter: AdapterNo(adapter_read),
    };
    Ok((entry, rest))
}

/// The fields of a `resetend` line.
#[tactic(auto, unfolding(crate::specs::Lines::line_of))]
fn reset_end_line(bytes: &[u8]) -> Result<(Entry, &[u8]), LineRefusal>
    ensures { Gives (λ x. (line_of x.0, x.1.now)) result (read_fields kinds.ResetEnd bytes.now) }
{
    let (adapter_read, rest) = small(bytes)?;
    let (status_read, rest) = word(blank(rest)?)?;
    let entry = Entry::ResetEnd {
        adapter: AdapterNo(adapter_read),
        status: Status(status_read),
    };
    Ok((entry, rest))
}

/// The fields of a `fault` line.
#[tactic(auto, unfolding(crate::specs::Lines::line_of))]
fn fault_line(bytes: &[u8]) -> Result<(Entry, &[u8]), LineRefusal>
    ensures { Gives (λ x. (line_of x.0, x.1.now)) result (read_fields kinds.Fault bytes.now) }
{
    let (context_read, rest) = small(bytes)?;
    let (kind_read, rest) = fault_kind(blank(rest)?)?;
    let (address_read, rest) = word(blank(rest)?)?;
    let entry = Entry::Fault {
        context: CtxNo(context_read),
        kind: kind_read,
        address: Addr(address_read),
    };
    Ok((entry, rest))
}

/// The fields of a `stop` line.
#[tactic(auto, unfolding(crate::specs::Lines::line_of))]
fn stop_line(bytes: &[u8]) -> Result<(Entry, &[u8]), LineRefusal>
    ensures { Gives (λ x. (line_of x.0, x.1.now)) result (read_fields kinds.Stop bytes.now) }
{
    let (adapter_read, rest) = small(bytes)?;
    let (cause_read, rest) = cause(blank(rest)?)?;
    let entry = Entry::Stop {
        adapter: AdapterNo(adapter_read),
        cause: cause_read,
    };
    Ok((entry, rest))
}

/// The fields of a `await` line.
#[tactic(auto, unfolding(crate::specs::Lines::line_of))]
fn await_line(bytes: &[u8]) -> Result<(Entry, &[u8]), LineRefusal>
    ensures { Gives (λ x. (line_of x.0, x.1.now)) result (read_fields kinds.Await bytes.now) }
{
    let (driver_read, rest) = small(bytes)?;
    let (what_read, rest) = what(blank(rest)?)?;
    let entry = Entry::Await {
        driver: BindingNo(driver_read),
        condition: what_read,
    };
    Ok((entry, rest))
}

/// The fields of a `tag` line.
#[tactic(auto, unfolding(crate::specs::Lines::line_of))]
fn tag_line(bytes: &[u8]) -> Result<(Entry, &[u8]), LineRefusal>
    ensures { Gives (λ x. (line_of x.0, x.1.now)) result (read_fields kinds.Tag bytes.now) }
{
    let (packet_read, rest) = large(bytes)?;
    let (id_read, rest) = medium(blank(rest)?)?;
    let entry = Entry::Tag {
        packet: PacketNo(packet_read),
        id: id_read,
    };
    Ok((entry, rest))
}

/// The fields of a `cancel` line.
#[tactic(auto, unfolding(crate::specs::Lines::line_of))]
fn cancel_line(bytes: &[u8]) -> Result<(Entry, &[u8]), LineRefusal>
    ensures { Gives (λ x. (line_of x.0, x.1.now)) result (read_fields kinds.Cancel bytes.now) }
{
    let (driver_read, rest) = small(bytes)?;
    let (id_read, rest) = medium(blank(rest)?)?;
    let entry = Entry::Cancel {
        driver: BindingNo(driver_read),
        id: id_read,
    };
    Ok((entry, rest))
}

/// The fields of a `event` line.
#[tactic(auto, unfolding(crate::specs::Lines::line_of))]
fn event_line(alloc: Global, bytes: &[u8]) -> Result<(Entry, &[u8]), LineRefusal>
    ensures { Gives (λ x. (line_of x.0, x.1.now)) result (read_fields kinds.Event bytes.now) }
{
    let (driver_read, rest) = small(bytes)?;
    let (number_read, rest) = medium(blank(rest)?)?;
    let (bytes_read, rest) = byte_string(alloc, blank(rest)?)?;
    let (taken_read, rest) = flag(blank(rest)?)?;
    let entry = Entry::Event {
        driver: BindingNo(driver_read),
        number: number_read,
        bytes: bytes_read,
        taken: taken_read,
    };
    Ok((entry, rest))
}

/// The fields of a kind.
pub fn fields(alloc: Global, kind: Kind, bytes: &[u8]) -> Result<(Entry, &[u8]), LineRefusal>
    ensures { Gives (λ x. (line_of x.0, x.1.now)) result (read_fields kind bytes.now) }
{
    match kind {
        Kind::Bind => bind_line(bytes),
        Kind::Unbind => unbind_line(bytes),
        Kind::Quiet => quiet_line(bytes),
        Kind::Done => done_line(bytes),
        Kind::Send => send_line(alloc, bytes),
        Kind::Hand => hand_line(bytes),
        Kind::Requeue => requeue_line(bytes),
        Kind::Late => late_line(bytes),
        Kind::Complete => complete_line(bytes),
        Kind::Indicate => indicate_line(alloc, bytes),
        Kind::Return => return_line(bytes),
        Kind::Back => back_line(bytes),
        Kind::Ask => ask_line(alloc, bytes),
        Kind::HandAsk => hand_ask_line(bytes),
        Kind::Answer => answer_line(alloc, bytes),
        Kind::Enter => enter_line(alloc, bytes),
        Kind::Leave => leave_line(bytes),
        Kind::Turn => turn_line(bytes),
        Kind::Call => call_line(alloc, bytes),
        Kind::Reply => reply_line(alloc, bytes),
        Kind::Spin => spin_line(bytes),
        Kind::Port => port_line(alloc, bytes),
        Kind::WireIn => wire_in_line(bytes),
        Kind::WireOut => wire_out_line(alloc, bytes),
        Kind::Time => time_line(bytes),
        Kind::ResetBegin => reset_begin_line(bytes),
        Kind::ResetEnd => reset_end_line(bytes),
        Kind::Fault => fault_line(bytes),
        Kind::Stop => stop_line(bytes),
        Kind::Await => await_line(bytes),
        Kind::Tag => tag_line(bytes),
        Kind::Cancel => cancel_line(bytes),
        Kind::Event => event_line(alloc, bytes),
    }
}

/// The entry whose text begins the bytes.
#[tactic(auto, using(crate::proofs::Behind::line_at, crate::proofs::Behind::line_no_kind, crate::proofs::Behind::line_no_blank))]
pub fn entry(alloc: Global, bytes: &[u8]) -> Result<(Entry, &[u8]), LineRefusal>
    ensures { Gives (λ x. (line_of x.0, x.1.now)) result (line.read bytes.now) }
{
    let (front, rest) = name(bytes);
    match find_kind(front) {
        Some(kind) => fields(alloc, kind, blank(rest)?),
        None => Err(LineRefusal::NoEntry),
    }
}
