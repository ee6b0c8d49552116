//! Cancels and events that wait for a miniport's handlers, and resets that it owes.

use crate::books::{RUNNING, behind, takes};
use nd_base::AdapterNo;
use owner_book::{Book, Standing};

const ADAPTER: AdapterNo = AdapterNo(0);

/// How adapter 0 stands.
fn standing(book: &Book) -> Option<Standing> {
    if book.adapters() == 0 {
        return None;
    }
    Some(book.standing(ADAPTER))
}

/// Whether a cancel id, and an event, wait.
fn waits(book: &Book, cancel: bool, event: bool) -> bool {
    match standing(book) {
        Some(s) => s.cancel == cancel && s.event == event,
        None => false,
    }
}

/// A cancel waits for the miniport that holds such a packet, until its handler is entered.
#[test]
fn a_cancel_waits(rt: HostRuntime) {
    let waits = behind(rt.alloc(), RUNNING, |alloc, book| {
        takes(
            alloc,
            book,
            b"\
send 0 0 ffffffffffff0000000000010800\n\
tag 0 9\n\
enter 0 0 send 00000000,80000000,00000000 -\n\
hand 0\n\
leave 0 00000103\n\
cancel 1 9\n\
cancel 0 8\n\
cancel 0 9\n",
        ) && waits(book, true, false)
            && book.next_cancel(ADAPTER) == Some(9)
            && takes(alloc, book, b"enter 0 0 cancelsend 00000000,00000009 -\n")
            && waits(book, false, false)
            && book.next_cancel(ADAPTER) == None
    });
    assert!(rt; waits);
}

fn event_is(book: &Book, number: u32, bytes: &[u8]) -> bool {
    match book.next_event(ADAPTER) {
        Some((n, signalled)) => n == number && signalled == bytes,
        None => false,
    }
}

/// An event waits for its handler; of two the first one comes first.
#[test]
fn an_event_waits(rt: HostRuntime) {
    let waits = behind(rt.alloc(), RUNNING, |alloc, book| {
        takes(alloc, book, b"event 0 5 0102 1\nevent 1 6 - 1\n")
            && waits(book, false, true)
            && event_is(book, 5, &[1, 2])
            && takes(
                alloc,
                book,
                b"enter 0 0 pnpevent 00000000,00000005,e0001000,00000002 -\n",
            )
            && event_is(book, 6, &[])
    });
    assert!(rt; waits);
}

/// Whether adapter 0 owes a reset, or is unfinished.
fn owes(book: &Book, reset: bool, unfinished: bool) -> bool {
    match standing(book) {
        Some(s) => s.reset == reset && s.unfinished == unfinished,
        None => false,
    }
}

/// A reset that is owed is unfinished, and so is one that has not ended.
#[test]
fn a_reset_is_unfinished(rt: HostRuntime) {
    let unfinished = behind(rt.alloc(), RUNNING, |alloc, book| {
        owes(book, false, false)
            && takes(
                alloc,
                book,
                b"enter 0 0 checkforhang 00000000 -\nleave 0 00000001\n",
            )
            && owes(book, true, true)
            && takes(
                alloc,
                book,
                b"resetbegin 0\nenter 0 0 reset e0000000,00000000 -\nleave 0 00000103\n",
            )
            && owes(book, false, true)
    });
    assert!(rt; unfinished);
}
