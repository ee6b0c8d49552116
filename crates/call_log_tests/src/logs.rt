//! What lines say, and logs that grow.

ghost use Rattle.call_log.specs.Lines.{InRange};

use call_log::{
    Condition, Direction, Entry, Handler, Holders, Log, of_adapter, of_context, of_driver,
    read_log, text,
};
use nd_base::{AdapterNo, BindingNo, Bytes, CtxNo, LoanNo};
use std::alloc::Global;
use std::mem::size_of;
use std::test::Fail;

/// How many entries a large log has.
const MANY: u64 = 100_000;

/// Entries with their fields in other places than their neighbours'.
const LINES: &[u8] = b"\
turn 3 64\n\
indicate 1 6 0a0b 0,3,7 1\n\
enter 2 15 pnpevent e0000000,00000005 e0001000:00ff,e0001004:-\n\
port 0 out 2 10 0203\n\
await 4 frames 9\n";

fn is_turn(entry: &Entry) -> bool {
    match entry {
        Entry::Turn { context, count } => context.0 == 3 && *count == 64,
        _ => false,
    }
}

fn is_indication(entry: &Entry) -> bool {
    match entry {
        Entry::Indicate {
            adapter,
            loan,
            bytes,
            holders,
            copied,
        } => {
            *adapter == AdapterNo(1)
                && *loan == LoanNo(6)
                && bytes.as_slice() == [10, 11].as_slice()
                && holders.as_slice() == [BindingNo(0), BindingNo(3), BindingNo(7)].as_slice()
                && *copied
        }
        _ => false,
    }
}

fn is_entering(entry: &Entry) -> bool {
    match entry {
        Entry::Enter {
            adapter,
            context,
            handler,
            words,
            writes,
        } => {
            *adapter == Some(AdapterNo(2))
                && *context == CtxNo(15)
                && *handler == Handler::PnpEvent
                && words.as_slice() == [0xe000_0000, 5].as_slice()
                && writes.len() == 2
                && writes.as_slice()[0].bytes.as_slice() == [0, 255].as_slice()
                && writes.as_slice()[1].bytes.is_empty()
        }
        _ => false,
    }
}

fn is_output(entry: &Entry) -> bool {
    match entry {
        Entry::Port {
            direction,
            width,
            port,
            bytes,
            ..
        } => {
            *direction == Direction::Out
                && *width == 2
                && *port == 16
                && bytes.as_slice() == [2, 3].as_slice()
        }
        _ => false,
    }
}

fn is_wait(entry: &Entry) -> bool {
    match entry {
        Entry::Await { driver, condition } => {
            *driver == BindingNo(4) && *condition == Condition::Frames(9)
        }
        _ => false,
    }
}

fn has_parties(
    entry: Option<&Entry>,
    driver: Option<BindingNo>,
    adapter: Option<AdapterNo>,
    context: Option<CtxNo>,
) -> bool {
    match entry {
        Some(entry) => {
            of_driver(entry) == driver
                && of_adapter(entry) == adapter
                && of_context(entry) == context
        }
        None => false,
    }
}

fn says(log: &Log) -> bool {
    match (log.entry(0), log.entry(1), log.entry(2)) {
        (Some(turn), Some(indication), Some(entering)) => {
            is_turn(turn) && is_indication(indication) && is_entering(entering)
        }
        _ => false,
    }
}

fn says_more(log: &Log) -> bool {
    match (log.entry(3), log.entry(4)) {
        (Some(output), Some(wait)) => {
            is_output(output) && is_wait(wait) && log.entry(5).is_none()
        }
        _ => false,
    }
}

fn has_all_parties(log: &Log) -> bool {
    has_parties(log.entry(0), None, None, Some(CtxNo(3)))
        && has_parties(log.entry(2), None, Some(AdapterNo(2)), Some(CtxNo(15)))
        && has_parties(log.entry(4), Some(BindingNo(4)), None, None)
}

fn reads(alloc: Global) -> bool {
    match read_log(alloc, LINES) {
        Ok(log) => says(&log) && says_more(&log) && has_all_parties(&log),
        Err(_) => false,
    }
}

#[test]
fn fields_of_lines(rt: HostRuntime) -> Result<(), Fail> {
    assert!(rt; reads(rt.alloc()));
    Ok(())
}

/// The turn of this count.
fn turn(count: u64) -> Entry
    ensures { InRange result }
{
    Entry::Turn {
        context: CtxNo(1),
        count,
    }
}

fn grows(log: &mut Log) -> bool {
    for count in 0..MANY {
        if log.push(turn(count)).is_err() {
            return false;
        }
    }
    log.len() == MANY && log.spare() == 0 && !log.is_empty()
}

fn appends(log: &mut Log) -> bool {
    if log.reserve(2).is_err() || log.reserve(1).is_err() || log.push(turn(7)).is_err() {
        return false;
    }
    if log.spare() != 2 {
        return false;
    }
    log.append(turn(8));
    log.append(turn(9));
    log.spare() == 0 && log.len() == MANY + 3
}

#[test]
fn large_logs(rt: HostRuntime) -> Result<(), Fail> {
    let mut log = Log::new(rt.alloc());
    assert!(rt; log.is_empty() && grows(&mut log) && appends(&mut log));
    Ok(())
}

#[test]
fn text_of_an_entry(rt: HostRuntime) -> Result<(), Fail> {
    let line = text(rt.alloc(), &turn(64))?;
    assert!(rt; line.as_slice() == b"turn 1 64".as_slice());
    Ok(())
}

/// An entry takes 72 bytes at most, of which 48 are the heads of the two lists of an `indicate`.
#[test]
fn size_of_an_entry(rt: HostRuntime) -> Result<(), Fail> {
    assert!(rt; size_of::<Entry>() <= 72);
    assert!(rt; size_of::<Bytes>() == 24 && size_of::<Holders>() == 24);
    Ok(())
}
