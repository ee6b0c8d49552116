//! Stops.

use crate::books::{RUNNING, behind, breaks, takes};
use call_log::{Cause, Log, put_line};
use nd_base::{AdapterNo, Breach, Bytes};
use owner_book::Book;
use std::alloc::Global;

/// Adapter 0 has two packets, one of which its miniport holds, a loan that is out, and a request.
const BUSY: &[u8] = b"\
ask 0 0 set 0001010e 08000000\n\
enter 0 0 set 00000000,0001010e,80000000,00000004,e0000000,e0000004 -\n\
handask 0\n\
leave 0 00000000\n\
answer 0 00000000 -\n\
enter 0 0 handleinterrupt 00000000 -\n\
call 0 NdisMIndicateReceivePacket 00000000,80001000,00000001\n\
indicate 0 0 ffffffffffff0000000000010800 0 0\n\
reply 0 00000000 -\n\
leave 0 00000000\n\
send 0 0 ffffffffffff0000000000010800\n\
send 1 1 ffffffffffff0000000000010800\n\
enter 0 0 send 00000000,80000000,00000000 -\n\
hand 0\n\
leave 0 00000103\n\
ask 1 1 query 00010107 4\n";

/// The stop, and its tail: packets, then loans, then requests, the least first.
const STOPPED: &[u8] = b"\
stop 0 breach 8\n\
complete 0 c0000001\n\
complete 1 c0000001\n\
back 0 1\n\
answer 1 c0000001 -\n";

/// The text of a log.
fn put_text(log: &Log, text: &mut Bytes) -> bool {
    for i in 0..log.len() {
        if let Some(e) = log.entry(i) {
            if put_line(text, e).is_err() {
                return false;
            }
        }
    }
    true
}

fn text_is(alloc: Global, log: &Log, wanted: &[u8]) -> bool {
    let mut text = Bytes::new(alloc);
    put_text(log, &mut text) && text.as_slice() == wanted
}

fn writes_its_stop(alloc: Global, book: &mut Book, log: &mut Log) -> bool {
    let adapter = AdapterNo(0);
    if book.reserve_stop(log).is_err() || !book.stands(adapter) {
        return false;
    }
    book.stop(adapter, Cause::Breach(Breach(8)), log);
    text_is(alloc, log, STOPPED) && book.outstanding(adapter) == 0 && !book.stands(adapter)
}

fn stops(alloc: Global, book: &mut Book) -> bool {
    let mut log = Log::new(alloc);
    writes_its_stop(alloc, book, &mut log)
}

fn is_quiet_behind(alloc: Global, book: &mut Book) -> bool {
    takes(
        alloc,
        book,
        b"send 0 2 ffffffffffff0000000000010800\ncomplete 2 c0010002\nask 0 2 query 00010107 4\nanswer 2 c0010002 -\n",
    ) && breaks(alloc, book, b"enter 0 0 timer - -\n", 1, 9)
        && breaks(alloc, book, b"return 0 0\n", 1, 2)
}

/// A stop ends what is outstanding, in order; behind it a send and a question are refused with CLOSING.
#[test]
fn a_stop_ends_what_is_outstanding(rt: HostRuntime) {
    let stopped = behind(rt.alloc(), RUNNING, |alloc, book| {
        takes(alloc, book, BUSY)
            && book.outstanding(AdapterNo(0)) == 4
            && book.stop_room() == 6
            && stops(alloc, book)
            && is_quiet_behind(alloc, book)
    });
    assert!(rt; stopped);
}
