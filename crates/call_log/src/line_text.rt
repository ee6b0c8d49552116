//! Writing the line of each kind of entry.

ghost use Rattle.std.specs.Prelude.{◌≡◌, ◌++◌, ◌∷◌, ◌≤◌, [], IfOk, OnOk, map};
ghost use Rattle.std.specs.Option.{option_map};
ghost use Rattle.std.specs.Fmt.{decimal};
ghost use Rattle.log_fields.specs.Codes.{word_text};
ghost use Rattle.log_fields.specs.Fields.{write_of, flag_of, question_of, cause_of, what_of};
ghost use Rattle.call_log.specs.Kinds.{kind_name};
ghost use Rattle.call_log.specs.Lines.{line, text_of, InRange};
ghost use Rattle.call_log.specs.declared.kinds.Kind.TheVariants as kinds;

use crate::entry::Entry;
use crate::kinds::{Kind, kind_name};
use log_fields::field_text::{
    adapter_or_none, byte_string, cause, direction, flag, holders, name, number, port_number,
    question, what, word, words, writes,
};
use log_fields::names::{fault_name, handler_name, import_name};
use log_fields::{Cause, Condition, Direction, FaultKind, Handler, Question, Write};
use nd_base::{AdapterNo, BindingNo, Bytes, OutOfMemory};
use std::alloc::Global;

/// Puts a kind's name and a number.
fn one_number(out: &mut Bytes, kind: Kind, n: u64) -> Result<(), OutOfMemory>
    ensures { OnOk result (out.new ≡ out.old ++ (kind_name kind ++ 32 ∷ decimal n)) }
{
    out.extend_from_slice(kind_name(kind).as_bytes())?;
    number(out, n)
}

/// Puts a kind's name and two numbers.
fn two_numbers(out: &mut Bytes, kind: Kind, m: u64, n: u64) -> Result<(), OutOfMemory>
    ensures { OnOk result (out.new ≡ out.old ++ (kind_name kind ++ 32 ∷ (decimal m ++ 32 ∷ decimal n))) }
{
    one_number(out, kind, m)?;
    number(out, n)
}

/// Puts a kind's name, a number and a word.
fn number_and_word(out: &mut Bytes, kind: Kind, n: u64, w: u32) -> Result<(), OutOfMemory>
    ensures { OnOk result (out.new ≡ out.old ++ (kind_name kind ++ 32 ∷ (decimal n ++ 32 ∷ word_text w))) }
{
    one_number(out, kind, n)?;
    word(out, w)
}

/// Puts a `send` line, without its LF.
#[tactic(auto, unfolding(crate::specs::Lines::line, log_fields::specs::Fields::small, log_fields::specs::Fields::large))]
fn send_line(out: &mut Bytes, driver: u8, packet: u64, octets: &[u8]) -> Result<(), OutOfMemory>
    ensures { OnOk result (out.new ≡ out.old ++ line.text (kinds.Send, (driver, (packet, octets.now)))) }
{
    two_numbers(out, Kind::Send, u64::from(driver), packet)?;
    byte_string(out, octets)
}

/// Puts a `indicate` line, without its LF.
#[tactic(auto, unfolding(crate::specs::Lines::line, log_fields::specs::Fields::small, log_fields::specs::Fields::large, log_fields::specs::Fields::flag))]
fn indicate_line(
    out: &mut Bytes,
    at: u8,
    loan: u64,
    octets: &[u8],
    who: &[BindingNo],
    copied: bool,
) -> Result<(), OutOfMemory>
    ensures { OnOk result (out.new ≡ out.old ++ line.text (kinds.Indicate, (at, (loan, (octets.now, (map (λ h. h.0) who.now, flag_of copied)))))) }
{
    two_numbers(out, Kind::Indicate, u64::from(at), loan)?;
    byte_string(out, octets)?;
    holders(out, who)?;
    flag(out, copied)
}

/// Puts a `back` line, without its LF.
#[tactic(auto, unfolding(crate::specs::Lines::line, log_fields::specs::Fields::large, log_fields::specs::Fields::flag))]
fn back_line(out: &mut Bytes, loan: u64, failed: bool) -> Result<(), OutOfMemory>
    ensures { OnOk result (out.new ≡ out.old ++ line.text (kinds.Back, (loan, flag_of failed))) }
{
    one_number(out, Kind::Back, loan)?;
    flag(out, failed)
}

/// Puts a `ask` line, without its LF.
#[tactic(auto, unfolding(crate::specs::Lines::line, log_fields::specs::Fields::small, log_fields::specs::Fields::large))]
fn ask_line(out: &mut Bytes, driver: u8, request: u64, asked: &Question) -> Result<(), OutOfMemory>
    ensures { OnOk result (out.new ≡ out.old ++ line.text (kinds.Ask, (driver, (request, question_of asked.now)))) }
{
    two_numbers(out, Kind::Ask, u64::from(driver), request)?;
    question(out, asked)
}

/// Puts a `answer` line, without its LF.
#[tactic(auto, unfolding(crate::specs::Lines::line, log_fields::specs::Fields::large))]
fn answer_line(out: &mut Bytes, request: u64, status: u32, octets: &[u8]) -> Result<(), OutOfMemory>
    ensures { OnOk result (out.new ≡ out.old ++ line.text (kinds.Answer, (request, (status, octets.now)))) }
{
    number_and_word(out, Kind::Answer, request, status)?;
    byte_string(out, octets)
}

/// Puts a `enter` line, without its LF.
#[tactic(auto, unfolding(crate::specs::Lines::line, log_fields::specs::Fields::small))]
fn enter_line(
    out: &mut Bytes,
    at: Option<AdapterNo>,
    context: u8,
    handler: Handler,
    arguments: &[u32],
    written: &[Write],
) -> Result<(), OutOfMemory>
    ensures { OnOk result (out.new ≡ out.old ++ line.text (kinds.Enter, (option_map (λ a. a.0) at, (context, (handler, (arguments.now, map write_of written.now)))))) }
{
    out.extend_from_slice(kind_name(Kind::Enter).as_bytes())?;
    adapter_or_none(out, at)?;
    number(out, u64::from(context))?;
    name(out, handler_name(handler))?;
    words(out, arguments)?;
    writes(out, written)
}

/// Puts a `call` line, without its LF.
#[tactic(auto, unfolding(crate::specs::Lines::line, log_fields::specs::Fields::small))]
fn call_line(out: &mut Bytes, context: u8, import: u8, arguments: &[u32]) -> Result<(), OutOfMemory>
    requires { (1 ≤ import) × (import ≤ 64) }
    ensures { OnOk result (out.new ≡ out.old ++ line.text (kinds.Call, (context, (import, arguments.now)))) }
{
    one_number(out, Kind::Call, u64::from(context))?;
    name(out, import_name(import))?;
    words(out, arguments)
}

/// Puts a `reply` line, without its LF.
#[tactic(auto, unfolding(crate::specs::Lines::line, log_fields::specs::Fields::small))]
fn reply_line(out: &mut Bytes, context: u8, eax: u32, written: &[Write]) -> Result<(), OutOfMemory>
    ensures { OnOk result (out.new ≡ out.old ++ line.text (kinds.Reply, (context, (eax, map write_of written.now)))) }
{
    number_and_word(out, Kind::Reply, u64::from(context), eax)?;
    writes(out, written)
}

/// Puts a `port` line, without its LF.
#[tactic(auto, unfolding(crate::specs::Lines::line, log_fields::specs::Fields::small, log_fields::specs::Fields::width))]
fn port_line(
    out: &mut Bytes,
    at: u8,
    way: Direction,
    size: u8,
    at_port: u8,
    octets: &[u8],
) -> Result<(), OutOfMemory>
    ensures { OnOk result (out.new ≡ out.old ++ line.text (kinds.Port, (at, (way, (size, (at_port, octets.now)))))) }
{
    one_number(out, Kind::Port, u64::from(at))?;
    direction(out, way)?;
    number(out, u64::from(size))?;
    port_number(out, at_port)?;
    byte_string(out, octets)
}

/// Puts a `wireout` line, without its LF.
#[tactic(auto, unfolding(crate::specs::Lines::line, log_fields::specs::Fields::small))]
fn wire_out_line(out: &mut Bytes, at: u8, octets: &[u8]) -> Result<(), OutOfMemory>
    ensures { OnOk result (out.new ≡ out.old ++ line.text (kinds.WireOut, (at, octets.now))) }
{
    one_number(out, Kind::WireOut, u64::from(at))?;
    byte_string(out, octets)
}

/// Puts a `fault` line, without its LF.
#[tactic(auto, unfolding(crate::specs::Lines::line, log_fields::specs::Fields::small))]
fn fault_line(out: &mut Bytes, context: u8, why: FaultKind, address: u32) -> Result<(), OutOfMemory>
    ensures { OnOk result (out.new ≡ out.old ++ line.text (kinds.Fault, (context, (why, address)))) }
{
    one_number(out, Kind::Fault, u64::from(context))?;
    name(out, fault_name(why))?;
    word(out, address)
}

/// Puts a `stop` line, without its LF.
#[tactic(auto, unfolding(crate::specs::Lines::line, log_fields::specs::Fields::small))]
fn stop_line(out: &mut Bytes, at: u8, by: Cause) -> Result<(), OutOfMemory>
    ensures { OnOk result (out.new ≡ out.old ++ line.text (kinds.Stop, (at, cause_of by))) }
{
    one_number(out, Kind::Stop, u64::from(at))?;
    cause(out, by)
}

/// Puts a `await` line, without its LF.
#[tactic(auto, unfolding(crate::specs::Lines::line, log_fields::specs::Fields::small))]
fn await_line(out: &mut Bytes, driver: u8, until: Condition) -> Result<(), OutOfMemory>
    ensures { OnOk result (out.new ≡ out.old ++ line.text (kinds.Await, (driver, what_of until))) }
{
    one_number(out, Kind::Await, u64::from(driver))?;
    what(out, until)
}

/// Puts a `event` line, without its LF.
#[tactic(auto, unfolding(crate::specs::Lines::line, log_fields::specs::Fields::small, log_fields::specs::Fields::medium, log_fields::specs::Fields::flag))]
fn event_line(
    out: &mut Bytes,
    driver: u8,
    event: u32,
    octets: &[u8],
    taken: bool,
) -> Result<(), OutOfMemory>
    ensures { OnOk result (out.new ≡ out.old ++ line.text (kinds.Event, (driver, (event, (octets.now, flag_of taken))))) }
{
    two_numbers(out, Kind::Event, u64::from(driver), u64::from(event))?;
    byte_string(out, octets)?;
    flag(out, taken)
}

/// Puts the line of an entry, without its LF, behind the bytes that are there.
#[tactic(auto, unfolding(crate::specs::Lines::line_of))]
fn entry_line(out: &mut Bytes, entry: &Entry) -> Result<(), OutOfMemory>
    requires { InRange entry.now }
    ensures { OnOk result (out.new ≡ out.old ++ text_of entry.now) }
{
    match entry {
        Entry::Bind { driver, adapter } => {
            two_numbers(out, Kind::Bind, u64::from(driver.0), u64::from(adapter.0))
        },
        Entry::Unbind { driver } => one_number(out, Kind::Unbind, u64::from(driver.0)),
        Entry::Quiet { driver } => one_number(out, Kind::Quiet, u64::from(driver.0)),
        Entry::Done { driver } => one_number(out, Kind::Done, u64::from(driver.0)),
        Entry::Send {
            driver,
            packet,
            bytes,
        } => send_line(out, driver.0, packet.0, bytes.as_slice()),
        Entry::Hand { packet } => one_number(out, Kind::Hand, packet.0),
        Entry::Requeue { packet } => one_number(out, Kind::Requeue, packet.0),
        Entry::Late { packet } => one_number(out, Kind::Late, packet.0),
        Entry::Complete { packet, status } => {
            number_and_word(out, Kind::Complete, packet.0, status.0)
        },
        Entry::Indicate {
            adapter,
            loan,
            bytes,
            holders,
            copied,
        } => indicate_line(
            out,
            adapter.0,
            loan.0,
            bytes.as_slice(),
            holders.as_slice(),
            *copied,
        ),
        Entry::Return { driver, loan } => {
            two_numbers(out, Kind::Return, u64::from(driver.0), loan.0)
        },
        Entry::Back { loan, failed } => back_line(out, loan.0, *failed),
        Entry::Ask {
            driver,
            request,
            question,
        } => ask_line(out, driver.0, request.0, question),
        Entry::HandAsk { request } => one_number(out, Kind::HandAsk, request.0),
        Entry::Answer {
            request,
            status,
            bytes,
        } => answer_line(out, request.0, status.0, bytes.as_slice()),
        Entry::Enter {
            adapter,
            context,
            handler,
            words,
            writes,
        } => enter_line(
            out,
            *adapter,
            context.0,
            *handler,
            words.as_slice(),
            writes.as_slice(),
        ),
        Entry::Leave { context, eax } => {
            number_and_word(out, Kind::Leave, u64::from(context.0), *eax)
        },
        Entry::Turn { context, count } => {
            two_numbers(out, Kind::Turn, u64::from(context.0), *count)
        },
        Entry::Call {
            context,
            import,
            words,
        } => call_line(out, context.0, *import, words.as_slice()),
        Entry::Reply {
            context,
            eax,
            writes,
        } => reply_line(out, context.0, *eax, writes.as_slice()),
        Entry::Spin { context, lock } => {
            number_and_word(out, Kind::Spin, u64::from(context.0), lock.0)
        },
        Entry::Port {
            adapter,
            direction,
            width,
            port,
            bytes,
        } => port_line(out, adapter.0, *direction, *width, *port, bytes.as_slice()),
        Entry::WireIn { frame } => one_number(out, Kind::WireIn, *frame),
        Entry::WireOut { adapter, bytes } => wire_out_line(out, adapter.0, bytes.as_slice()),
        Entry::Time { clock } => one_number(out, Kind::Time, *clock),
        Entry::ResetBegin { adapter } => {
            one_number(out, Kind::ResetBegin, u64::from(adapter.0))
        },
        Entry::ResetEnd { adapter, status } => {
            number_and_word(out, Kind::ResetEnd, u64::from(adapter.0), status.0)
        },
        Entry::Fault {
            context,
            kind,
            address,
        } => fault_line(out, context.0, *kind, address.0),
        Entry::Stop { adapter, cause } => stop_line(out, adapter.0, *cause),
        Entry::Await { driver, condition } => await_line(out, driver.0, *condition),
        Entry::Tag { packet, id } => two_numbers(out, Kind::Tag, packet.0, u64::from(*id)),
        Entry::Cancel { driver, id } => {
            two_numbers(out, Kind::Cancel, u64::from(driver.0), u64::from(*id))
        },
        Entry::Event {
            driver,
            number,
            bytes,
            taken,
        } => event_line(out, driver.0, *number, bytes.as_slice(), *taken),
    }
}

/// Puts the line of an entry, with its LF, behind the bytes that are there.
pub fn put_line(out: &mut Bytes, entry: &Entry) -> Result<(), OutOfMemory>
    requires { InRange entry.now }
    ensures { OnOk result (out.new ≡ out.old ++ (text_of entry.now ++ 10 ∷ [])) }
{
    entry_line(out, entry)?;
    out.push(b'\n')
}

/// The line of an entry, without its LF.
pub fn text(alloc: Global, entry: &Entry) -> Result<Bytes, OutOfMemory>
    requires { InRange entry.now }
    ensures { IfOk result (λ text. text ≡ text_of entry.now) }
{
    let mut out = Bytes::new(alloc);
    entry_line(&mut out, entry)?;
    Ok(out)
}
